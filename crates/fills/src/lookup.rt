// The row that counts for a member, soil and slope (02, P4), as the stretch of the lent book that it is, "so the note can be shown"; and where it
// lies, since a stretch that is handed back does not say it.
//
// An own row wins, and a refused book gives none. What is hard is that the row of a fill, known by its words, is found again in the text: rows and
// fills stand in one order.
ghost use Rattle.fills.specs.lookup.Lookup.{PlaceIs, RowIs};
ghost use Rattle.fills.specs.lookup.steps.Found.{HasRow, PartIs, FoundIs};

use crate::digest::Digest;
use crate::faults::FillFault;
use crate::fill_rows::Whose;
use crate::{digest, reading};
use fields::names::Name;

// From where to where a row lies. (A `Range` could not be copied.)
#[derive(Clone, Copy)]
pub struct Lies {
    pub from: usize,
    pub to: usize,
}

// Where a row lies: in which of the two books, from where to where.
#[derive(Clone, Copy)]
pub enum Place {
    Own(Lies),
    Common(Lies),
}

// Where the row n of a fill book lies, the first being 0: to the end of its fifth cell.
fn row_part(s: &[u8], n: usize) -> Lies
    requires { HasRow s.now n }
    ensures { PartIs s.now n result }
{
    let mut at: usize = 0;
    for _ in 0..n {
        at = csv_text::cells::cells_at(s, at).next;
    }
    let cells = csv_text::cells::cells_at(s, at);
    let to = cells.places[4].to;
    Lies { from: at, to }
}

// Where the row for a member, soil and slope lies in one book, if it has one; or why the book is refused.
fn find_row(
    s: &[u8],
    of: Whose,
    member: Name,
    soil: u32,
    slope: u32,
) -> Result<Option<Lies>, FillFault>
    ensures { FoundIs of s.now member soil slope result }
{
    let mut fills = Digest::new();
    reading::read_rows(s, of, &mut fills)?;
    // no row has such a member, soil or slope
    if 12 < member.len || 5 < soil || 5 < slope {
        return Ok(None);
    }
    let key = digest::fill_key(member, soil, slope);
    match fills.find(key) {
        Some(n) => Ok(Some(row_part(s, n))),
        None => Ok(None),
    }
}

// Where the row that counts for a member, soil and slope lies, if there is one; nowhere, where a book is refused.
pub fn place_of(own: &[u8], common: &[u8], member: &[u8], soil: u32, slope: u32) -> Option<Place>
    ensures { PlaceIs own.now common.now member.now soil slope result }
{
    let nobody = fields::names::blank_name();
    let Ok(shared) = find_row(common, Whose::Common, nobody, soil, slope) else {
        return None;
    };
    let named = fields::names::name_of(member).unwrap_or(nobody);
    let Ok(mine) = find_row(own, Whose::Own, named, soil, slope) else {
        return None;
    };
    match (mine, shared) {
        (Some(row), _) => Some(Place::Own(row)),
        (None, Some(row)) => Some(Place::Common(row)),
        (None, None) => None,
    }
}

// The row that counts for a member, soil and slope, without its CRLF; nothing where there is none, or a book is refused.
pub fn row_of<'a>(own: &'a [u8], common: &'a [u8], member: &[u8], soil: u32, slope: u32) -> &'a [u8]
    ensures { RowIs own.now common.now member.now soil slope result.now }
{
    match place_of(own, common, member, soil, slope) {
        Some(Place::Own(row)) => &own[row.from..row.to],
        Some(Place::Common(row)) => &common[row.from..row.to],
        None => &[],
    }
}
