// What is told, piece by piece, each a value that prints itself: numbers, a field's bytes, and where a row stands.
//
// A field is shown as it lies in the book, and safely: a byte that is not printable by its number, and a long field by its first bytes.
use csv_text::places;
use kinds::Kind;
use std::fmt;

// How many bytes of a field are shown.
const SHOWN: usize = 60;

// A number, its digits in threes.
#[derive(Clone, Copy)]
pub(crate) struct Grouped(pub(crate) u64);

impl fmt::Display for Grouped {
    fn fmt<W: fmt::Write>(&self, f: &mut fmt::Formatter<W>) -> fmt::Result {
        let n = self.0;
        let thousands = n / 1000;
        let millions = n / 1_000_000;
        if 0 < millions {
            write!(f, "{millions},{:03},{:03}", thousands % 1000, n % 1000)
        } else if 0 < thousands {
            write!(f, "{thousands},{:03}", n % 1000)
        } else {
            write!(f, "{n}")
        }
    }
}

// A byte as it is, or by its number where it is not printable.
#[derive(Clone, Copy)]
struct Byte(u8);

impl fmt::Display for Byte {
    fn fmt<W: fmt::Write>(&self, f: &mut fmt::Formatter<W>) -> fmt::Result {
        let byte = self.0;
        match byte {
            b' '..=b'~' => write!(f, "{}", char::from(byte)),
            _ => write!(f, "<{byte}>"),
        }
    }
}

// The first bytes of a stretch.
#[derive(Clone, Copy)]
struct Bytes<'a>(&'a [u8]);

impl<'a> fmt::Display for Bytes<'a> {
    fn fmt<W: fmt::Write>(&self, f: &mut fmt::Formatter<W>) -> fmt::Result {
        for byte in self.0.iter().take(SHOWN) {
            write!(f, "{}", Byte(*byte))?;
        }
        if SHOWN < self.0.len() {
            return write!(f, "..");
        }
        Ok(())
    }
}

// A field as it lies in the book, between quotes: its own, where it has them.
#[derive(Clone, Copy)]
pub(crate) struct Field<'a>(pub(crate) &'a [u8]);

impl<'a> fmt::Display for Field<'a> {
    fn fmt<W: fmt::Write>(&self, f: &mut fmt::Formatter<W>) -> fmt::Result {
        match self.0 {
            [b'"', _, ..] => write!(f, "{}", Bytes(self.0)),
            _ => write!(f, "\"{}\"", Bytes(self.0)),
        }
    }
}

// What a field of good form says, without its quotes.
fn content(raw: &[u8]) -> Bytes<'_> {
    match raw {
        [b'"', inside @ .., _] => Bytes(inside),
        _ => Bytes(raw),
    }
}

// A row of a text.
#[derive(Clone, Copy)]
pub(crate) struct RowOf<'a> {
    pub(crate) text: &'a [u8],
    pub(crate) row: usize,
}

impl<'a> RowOf<'a> {
    // The row so many rows behind.
    pub(crate) fn behind(self, rows: usize) -> RowOf<'a> {
        RowOf {
            text: self.text,
            row: self.row.saturating_add(rows),
        }
    }

    // Whether the text has such a row.
    pub(crate) fn is_there(self) -> bool {
        places::start_of(self.text, self.row) < self.text.len()
    }

    // The kind that its third field is.
    pub(crate) fn kind(self) -> Option<Kind> {
        kinds::letters::kind_at(places::cell_of(self.text, self.row, 3))
    }

    // What a field of the row says.
    fn says(self, column: usize) -> Bytes<'a> {
        content(places::cell_of(self.text, self.row, column))
    }

    // A field of the row as it lies there.
    pub(crate) fn field(self, column: usize) -> Field<'a> {
        Field(places::cell_of(self.text, self.row, column))
    }

    // Member and job, where the row is of good form.
    pub(crate) fn key(self) -> KeyOf<'a> {
        KeyOf(self)
    }
}

// A row as a sheet counts it, and the line on which it begins as an editor counts it.
impl<'a> fmt::Display for RowOf<'a> {
    fn fmt<W: fmt::Write>(&self, f: &mut fmt::Formatter<W>) -> fmt::Result {
        let start = places::start_of(self.text, self.row);
        let line = places::line_of(self.text, start);
        write!(
            f,
            "row {} (line {} of the text)",
            Grouped(self.row as u64),
            Grouped(line as u64),
        )
    }
}

// Member and job of a row.
#[derive(Clone, Copy)]
pub(crate) struct KeyOf<'a>(RowOf<'a>);

impl<'a> fmt::Display for KeyOf<'a> {
    fn fmt<W: fmt::Write>(&self, f: &mut fmt::Formatter<W>) -> fmt::Result {
        write!(f, "{},{}", self.0.says(1), self.0.says(2))
    }
}

// A row with its kind and key.
#[derive(Clone, Copy)]
pub(crate) struct Keyed<'a>(pub(crate) RowOf<'a>);

impl<'a> fmt::Display for Keyed<'a> {
    fn fmt<W: fmt::Write>(&self, f: &mut fmt::Formatter<W>) -> fmt::Result {
        let row = self.0;
        write!(f, "{row}, {} of {}", row.says(3), row.key())
    }
}

// How many fields a row has.
#[derive(Clone, Copy)]
pub(crate) struct FieldCount(pub(crate) usize);

impl fmt::Display for FieldCount {
    fn fmt<W: fmt::Write>(&self, f: &mut fmt::Formatter<W>) -> fmt::Result {
        let count = self.0;
        let noun = if count == 1 { "field" } else { "fields" };
        write!(f, "{} {noun}", Grouped(count as u64))
    }
}
