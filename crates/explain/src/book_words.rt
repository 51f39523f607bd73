// Where the refusal of a book lies (document 01, refusals 1 to 6), in words: the row, what stands there, and what would be right.
use crate::columns::ColumnOf;
use crate::text_words::WrongText;
use crate::words::{FieldCount, Grouped, Keyed, RowOf};
use book::faults::BookFault;
use jobs::misplaced::Misplaced;
use kinds::{Column, Kind};
use rows::faults::RowFault;
use std::fmt;

// Whether a column of a kind is one that stays empty: n5 and n6, the 8th and the 9th, may be.
fn is_empty(kind: Kind, column: usize) -> bool {
    let columns = kinds::columns_of(kind);
    match column {
        8 => matches!(columns.n5, Column::Empty),
        9 => matches!(columns.n6, Column::Empty),
        _ => false,
    }
}

// What a number's column that has not its form has to be.
fn expected(kind: Kind, column: usize, raw: &[u8]) -> &'static str {
    if is_empty(kind, column) {
        "has to stay empty."
    } else if raw.is_empty() {
        "is empty: a whole number has to stand here."
    } else {
        "is no whole number: digits alone, 1 to 9 of them and no 0 in front, with a minus where it is below zero."
    }
}

// The first column of a row that has not its form, with what stands there and what would be right.
#[derive(Clone, Copy)]
struct WrongColumn<'a> {
    row: RowOf<'a>,
    column: usize,
}

impl<'a> fmt::Display for WrongColumn<'a> {
    fn fmt<W: fmt::Write>(&self, f: &mut fmt::Formatter<W>) -> fmt::Result {
        let column = self.column;
        let field = self.row.field(column);
        write!(f, ", column {}, ", Grouped(column as u64))?;
        match column {
            1 => write!(
                f,
                "member: {field}\n  is no member name: 1 to 12 capital letters A to Z, digits and hyphens."
            ),
            2 => write!(
                f,
                "job: {field}\n  is no job name: 1 to 12 capital letters A to Z, digits and hyphens."
            ),
            3 => write!(
                f,
                "kind: {field}\n  is no kind. The kinds are B, S, C, E, W, G, DL, EP, LL, LF, CF, WC, BU, TM, EX, WL and SF."
            ),
            _ => match self.row.kind() {
                Some(kind) => write!(
                    f,
                    "{}: {field}\n  {}",
                    ColumnOf { kind, column },
                    expected(kind, column, field.0),
                ),
                None => Ok(()),
            },
        }
    }
}

// A row without a form.
#[derive(Clone, Copy)]
struct WrongRow<'a> {
    row: RowOf<'a>,
    fault: RowFault,
}

impl<'a> fmt::Display for WrongRow<'a> {
    fn fmt<W: fmt::Write>(&self, f: &mut fmt::Formatter<W>) -> fmt::Result {
        let row = self.row;
        match self.fault {
            RowFault::Count(count) => {
                write!(
                    f,
                    "{row} has {}\n  where a row has ten: member, job, kind, n1 to n6, note.",
                    FieldCount(count)
                )?;
                if 10 < count {
                    write!(f, " A comma inside a field needs quotes around the field.")?;
                }
                Ok(())
            }
            RowFault::Column(column) => write!(f, "{row}{}", WrongColumn { row, column }),
        }
    }
}

// Why a row is out of place.
fn rule(why: Misplaced) -> &'static str {
    match why {
        Misplaced::NoBase => "has no B row before it: a job begins with its B row.",
        Misplaced::NoLoad =>
            "begins a job while the job before it has no load row: each job has 1 to 16.",
        Misplaced::OtherKey =>
            "has not the key of its job: all rows of a job have the member and the job of its B row.",
        Misplaced::SecondScour => "is a second S row: a job has at most one.",
        Misplaced::LateScour => "stands behind a load row: an S row stands right behind its B row.",
        Misplaced::NoScour => "stands in a job without an S row: a C row stands right behind one.",
        Misplaced::SecondClearance => "is a second C row: a job has at most one.",
        Misplaced::LateClearance =>
            "stands behind a load row: a C row stands right behind its S row.",
        Misplaced::SurplusLoad => "is a 17th load row: a job has at most 16.",
    }
}

// A row out of place, or the end, where the last job has no load row.
#[derive(Clone, Copy)]
struct Misplacement<'a> {
    row: RowOf<'a>,
    why: Misplaced,
}

impl<'a> fmt::Display for Misplacement<'a> {
    fn fmt<W: fmt::Write>(&self, f: &mut fmt::Formatter<W>) -> fmt::Result {
        let row = self.row;
        if row.is_there() {
            write!(f, "{}\n  {}", Keyed(row), rule(self.why))
        } else {
            write!(
                f,
                "the end of the book, where row {} would stand\n  The last job has no load row: each job has 1 to 16.",
                Grouped(row.row as u64),
            )
        }
    }
}

// Where the refusal of a book lies.
#[derive(Clone, Copy)]
pub(crate) struct WrongBook<'a> {
    pub(crate) book: &'a [u8],
    pub(crate) fault: BookFault,
}

impl<'a> fmt::Display for WrongBook<'a> {
    fn fmt<W: fmt::Write>(&self, f: &mut fmt::Formatter<W>) -> fmt::Result {
        let text = self.book;
        match self.fault {
            BookFault::TooLong => writeln!(
                f,
                "the text has more than 65,536 bytes\n  and a book has at most 65,536: share the jobs out over several books.   [refusal 1]"
            ),
            BookFault::Text(fault) => writeln!(f, "{}   [refusal 2]", WrongText { text, fault }),
            BookFault::Row(row, fault) => writeln!(
                f,
                "{}   [refusal 3]",
                WrongRow {
                    row: RowOf { text, row },
                    fault
                }
            ),
            BookFault::Misplaced(row, why) => writeln!(
                f,
                "{}   [refusal 4]",
                Misplacement {
                    row: RowOf { text, row },
                    why
                }
            ),
            BookFault::TooManyJobs(row) => writeln!(
                f,
                "{}\n  begins a 65th job: a book has at most 64.   [refusal 5]",
                Keyed(RowOf { text, row })
            ),
            BookFault::UsedKey(row, earlier) => writeln!(
                f,
                "{}\n  has the key of {}: each job of a book has a key of its own.   [refusal 6]",
                Keyed(RowOf { text, row }),
                RowOf { text, row: earlier },
            ),
        }
    }
}
