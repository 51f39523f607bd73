// The note of a row of a text (document 01, the job book): "handed on as the stretch of the book from its comma to its row's
// end", which is the row's tenth cell.
//
// A row is found by passing the rows before it, and no row stands behind a final CRLF.
ghost use Rattle.csv_text.specs.rfc4180.Rfc4180.{Readable};
ghost use Rattle.csv_text.specs.notes.Notes.{NoteAt};

// The note of a row of an RFC 4180 text, as the stretch that it is; nothing where there is no such row.
pub fn note_at(s: &[u8], row: usize) -> &[u8]
    requires { Readable s.now }
    ensures { NoteAt s.now row result.now }
{
    let mut n: usize = 1;
    let mut at: usize = 0;
    loop {
        let cells = crate::cells::cells_at(s, at);
        if n == row {
            return cells.cell(s, 9);
        }
        at = cells.next;
        if s.len() <= at {
            return &s[0..0];
        }
        n += 1;
    }
}
