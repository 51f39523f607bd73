// Rows, fields and lines of a text by number, as a person counts them (where a refusal lies): where a row starts, the stretch of a field, and the line
// of a place.
//
// A row is found by passing the rows before it. What is hard is what is no row: nothing stands behind a final CRLF, and the empty text has a row all
// the same, which starts where the text ends.
ghost use Rattle.std.specs.Prelude.{◌+◌, ◌≡◌, take};
ghost use Rattle.csv_text.specs.places.Places.{StartsAt, FieldIs, breaks};

use crate::cells;

// Where a row starts; the text's end where there is no such row.
pub fn start_of(s: &[u8], row: usize) -> usize
    ensures { StartsAt s.now row result }
{
    if !crate::is_csv(s) {
        return s.len();
    }
    let mut n: usize = 1;
    let mut at: usize = 0;
    loop {
        if n == row {
            return at;
        }
        let passed = cells::cells_at(s, at);
        at = passed.next;
        if s.len() <= at {
            return s.len();
        }
        n += 1;
    }
}

// A field of a row, among its first ten, as the stretch of the text that it is; nothing where there is no such field.
pub fn cell_of(s: &[u8], row: usize, column: usize) -> &[u8]
    ensures { FieldIs s.now row column result.now }
{
    if column == 0 {
        return &s[0..0];
    }
    let start = start_of(s, row);
    // no row, or that of the empty text, whose one field is empty
    if s.len() <= start {
        return &s[0..0];
    }
    let passed = cells::cells_at(s, start);
    passed.cell(s, column - 1)
}

// The line of a place, by the line breaks before it.
pub fn line_of(s: &[u8], at: usize) -> usize
    ensures { result ≡ breaks (take at s.now) + 1 }
{
    let mut line: usize = 1;
    let mut i: usize = 0;
    while i < s.len() && i < at {
        if s[i] == 0x0A {
            line += 1;
        }
        i += 1;
    }
    line
}
