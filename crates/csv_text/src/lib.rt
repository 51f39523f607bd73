// RFC 4180 text, read from a lent slice (document 01, the job book): whether a text is one (refusal 2) and where it stops being one, where the cells
// of a row stand, the note of a row, and rows, fields and lines by number.
//
// What RFC 4180 is stands in `rfc4180`, as a relation between a text and its rows. What is hard is that one walk from field to field decides
// whether a text has rows: from the start of a field, the text is readable exactly if it is from the start of the next.
#![tactic(auto)]

pub mod cells;
mod field;
pub mod notes;
pub mod places;
mod quoted;
pub mod rfc4180;
pub mod strays;

ghost use Rattle.csv_text.specs.rfc4180.Rfc4180.{Readable};
ghost use Rattle.arithmetic.specs.decides.Decides.{Decides};

use field::Ended;

// Whether the text is RFC 4180.
pub fn is_csv(s: &[u8]) -> bool
    ensures { Decides result (Readable s.now) }
{
    let mut at: usize = 0;
    // by no fixed step: each field begins where the one before it ends
    loop {
        match field::field_end(s, at) {
            Some(Ended::Comma(e)) => at = e + 1,
            Some(Ended::Row(e)) => at = e + 2,
            Some(Ended::End) => return true,
            None => return false,
        }
    }
}
