// The cells of a row of an RFC 4180 text, by position (document 01, the job book): how many there are, where the first ten stand, and
// where the next row starts; and the stretch of the text that a cell is.
//
// The text is known to be RFC 4180, so no field is bad. Each place is tied to the one reading of the text: the loop keeps the fields
// passed, and what stands behind them still has the rest of the rows.
ghost use Rattle.csv_text.specs.cells.Cells.{CellAt, RowAt};
ghost use Rattle.std.specs.Prelude.{◌≡◌, ◌+◌, ◌≤◌, ◌<◌, ◌^◌, length, drop, set};
ghost use Rattle.csv_text.specs.rfc4180.Rfc4180.{Readable};

use crate::field::Ended;

// Where a field stands: from one place up to another.
#[derive(Clone, Copy)]
pub struct Place {
    pub from: usize,
    pub to: usize,
}

// A row: how many fields it has, where the first ten stand, and where the next row starts. The count may be above ten, so it is not that of the
// places.
#[derive(Clone, Copy)]
pub struct Cells {
    pub count: usize,
    pub places: [Place; 10],
    pub next: usize,
}

impl Cells {
    // The cell k of the row, as the stretch of the text that it is.
    pub fn cell(self, s: &[u8], k: usize) -> &[u8]
        ensures { CellAt s.now self k result.now }
    {
        if k < 10 {
            let Place { from, to } = self.places[k];
            if (from <= to) & (to <= s.len()) {
                return &s[from..to];
            }
        }
        &s[0..0]
    }
}

// Notes where the field n stands; one behind the tenth is not noted.
fn note_place(places: &mut [Place; 10], n: usize, place: Place)
    ensures { places.new ≡ set places.old n place }
{
    if n < 10 {
        places[n] = place;
    }
}

// The row whose last field is n, which stands at a place; and where the next row starts.
fn closed(places: [Place; 10], n: usize, last: Place, next: usize) -> Cells
    requires { n < 2 ^ 63 }
    ensures { result ≡ record { count = n + 1; places = set places n last; next = next } }
{
    let mut places = places;
    note_place(&mut places, n, last);
    Cells {
        count: n + 1,
        places,
        next,
    }
}

// The row that starts at a place.
pub fn cells_at(s: &[u8], start: usize) -> Cells
    requires start_in_bounds { start ≤ length s.now }
    requires readable { Readable (drop start s.now) }
    ensures { RowAt s.now start result }
{
    let mut places = [Place { from: 0, to: 0 }; 10];
    let mut n: usize = 0;
    let mut at = start;
    // by no fixed step: each field begins where the one before it ends
    loop {
        match crate::field::field_end(s, at) {
            Some(Ended::Comma(to)) => {
                note_place(&mut places, n, Place { from: at, to });
                n += 1;
                at = to + 1;
            }
            Some(Ended::Row(to)) => return closed(places, n, Place { from: at, to }, to + 2),
            Some(Ended::End) => {
                let to = s.len();
                return closed(places, n, Place { from: at, to }, to);
            }
            // the text is readable, so no field is bad
            None => unreachable!(),
        }
    }
}
