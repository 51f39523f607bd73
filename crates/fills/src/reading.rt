// The rows of a fill book, one by one (02, P4): their fills in words; or where the refusal of the bytes lies (8).
//
// The loop's invariant is in the words of `specs/FillBook.antt`: the rows passed mean the fills that are held, and none of these is listed twice.
ghost use Rattle.std.specs.Prelude.{◌≡◌, ◌≤◌, ◌<◌, [], length};
ghost use Rattle.csv_text.specs.rfc4180.Rfc4180.{Readable};
ghost use Rattle.fills.specs.reading.Rows.{RowsAre};

use crate::digest::{Digest, FillWords};
use crate::faults::FillFault;
use crate::fill_rows::Whose;
use crate::{digest, fill_rows};

// The fills of an RFC 4180 text that is not empty.
fn walk(s: &[u8], whose: Whose, fills: &mut Digest) -> Result<(), FillFault>
    requires some { 0 < length s.now }
    requires few { length s.now ≤ 65536 }
    requires readable { Readable s.now }
    requires none { fills.old ≡ [] }
    ensures { RowsAre whose s.now fills.new result }
{
    let mut n: usize = 0;
    let mut at: usize = 0;
    // by no fixed step: each row begins where the one before it ends
    'rows: loop {
        n += 1;
        let cells = csv_text::cells::cells_at(s, at);
        let fill = fill_rows::fill_of(s, cells, whose, n)?;
        let key = digest::fill_key(fill.member, fill.soil, fill.slope);
        if let Some(place) = fills.find(key) {
            let earlier = place + 1;
            return Err(FillFault::Twice(n, earlier));
        }
        fills.push(FillWords {
            key,
            value: fill.value,
        });
        at = cells.next;
        if s.len() <= at {
            break;
        }
    }
    Ok(())
}

// The fills of a book, in words; or where its refusal lies.
pub(crate) fn read_rows(s: &[u8], whose: Whose, fills: &mut Digest) -> Result<(), FillFault>
    ensures { RowsAre whose s.now fills.new result }
{
    fills.clear();
    if 65536 < s.len() {
        return Err(FillFault::TooLong);
    }
    if s.is_empty() {
        return Ok(());
    }
    // `is_csv` passes a text faster than the walk that tells where it stops
    if !csv_text::is_csv(s) {
        let Some(fault) = csv_text::strays::text_fault(s) else {
            unreachable!()
        };
        return Err(FillFault::Text(fault));
    }
    walk(s, whose, fills)
}
