// Where the refusal of a fill book lies (02, P4: refusal 8; where a refusal lies, 8): too long; not RFC 4180, with its place; or the first bad
// row, with its number of fields, its first bad column, or the earlier row of the same member, soil and slope.
//
// The walk that reads the fills tells the row. What is hard is that there is one such row: the rows before it begin a fill book, and with it they
// begin none.
ghost use Rattle.fills.specs.faults.Faults.{FillLies};

use crate::digest::Digest;
use crate::fill_rows::Whose;
use crate::reading;
use csv_text::strays::TextFault;

// Where the refusal of a fill book lies, its rows and columns counted from 1.
#[derive(Clone, Copy)]
pub enum FillFault {
    TooLong,
    Text(TextFault),
    // the row, and its number of fields
    Count(usize, usize),
    // the row, and its first column outside its form or range
    Column(usize, usize),
    // the row, and the earlier row of the same member, soil and slope
    Twice(usize, usize),
}

// Where the refusal of a fill book lies, if it is refused.
pub fn fill_fault(s: &[u8], whose: Whose) -> Option<FillFault>
    ensures { FillLies whose s.now result }
{
    let mut fills = Digest::new();
    reading::read_rows(s, whose, &mut fills).err()
}
