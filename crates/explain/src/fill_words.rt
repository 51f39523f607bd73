// Where the refusal of a fill book lies (02, P4, refusal 8), in words.
use crate::text_words::WrongText;
use crate::words::{FieldCount, Grouped, RowOf};
use fills::faults::FillFault;
use fills::fill_rows::Whose;
use std::fmt;

// The name of a column of a fill book's row, and what it has to be.
fn column_of(whose: Whose, column: usize) -> (&'static str, &'static str) {
    match (column, whose) {
        (1, Whose::Own) => (
            "member",
            "is no member name: 1 to 12 capital letters A to Z, digits and hyphens.",
        ),
        (1, Whose::Common) => (
            "member",
            "has to stay empty: the common book has no members.",
        ),
        (2, _) => ("soil", "is no soil: a whole number from 1 to 5."),
        (3, _) => ("slope", "is no slope: a whole number from 1 to 5."),
        _ => ("value", "is no value: a whole number from 1 to 40,000."),
    }
}

// Where the refusal of a fill book lies.
#[derive(Clone, Copy)]
pub(crate) struct WrongFills<'a> {
    pub(crate) text: &'a [u8],
    pub(crate) whose: Whose,
    pub(crate) fault: FillFault,
}

impl<'a> WrongFills<'a> {
    // What is wrong, and where.
    fn fmt_fault<W: fmt::Write>(&self, f: &mut fmt::Formatter<W>) -> fmt::Result {
        let text = self.text;
        match self.fault {
            FillFault::TooLong => write!(
                f,
                "the text has more than 65,536 bytes\n  and a fill book has at most 65,536."
            ),
            FillFault::Text(fault) => write!(f, "{}", WrongText { text, fault }),
            FillFault::Count(row, count) => write!(
                f,
                "{} has {}\n  where a row of a fill book has five: member, soil, slope, value, note.",
                RowOf { text, row },
                FieldCount(count),
            ),
            FillFault::Column(row, column) => {
                let row = RowOf { text, row };
                let (name, expected) = column_of(self.whose, column);
                write!(
                    f,
                    "{row}, column {}, {name}: {}\n  {expected}",
                    Grouped(column as u64),
                    row.field(column)
                )
            }
            FillFault::Twice(row, earlier) => {
                let listed = match self.whose {
                    Whose::Own => "member, soil and slope",
                    Whose::Common => "soil and slope",
                };
                write!(
                    f,
                    "{}\n  lists the {listed} of {} once more: each is listed once.",
                    RowOf { text, row },
                    RowOf { text, row: earlier },
                )
            }
        }
    }
}

impl<'a> fmt::Display for WrongFills<'a> {
    fn fmt<W: fmt::Write>(&self, f: &mut fmt::Formatter<W>) -> fmt::Result {
        match self.whose {
            Whose::Own => write!(f, "the own fill book: ")?,
            Whose::Common => write!(f, "the common fill book: ")?,
        }
        self.fmt_fault(f)?;
        writeln!(f, "   [refusal 8]")
    }
}
