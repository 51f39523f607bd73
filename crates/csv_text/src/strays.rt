// Where a text stops being RFC 4180 (where a refusal lies, 2): the first byte with which it begins no such text, or the quote or the CR that it ends
// behind.
//
// What may come next is settled by what stands right before, of which there are five kinds. What is hard is that the grammar goes field by field
// and says nothing of bytes: that a text begun so can go on in just these ways, whatever stood before its last field.
ghost use Rattle.csv_text.specs.strays.Strays.{TextSays};
ghost use Rattle.csv_text.specs.steps.NextSpot.{EndedBy, NextSpot, field_start};
ghost use Rattle.std.specs.Prelude.{◌≡◌};

use crate::quoted;

// What stands right before a place: a field starts there; plain text; an open quote, with what stands between quotes; a closed quoted field; a CR
// outside quotes.
#[derive(Clone, Copy)]
pub enum Spot {
    Start,
    Plain,
    Inside,
    Closed,
    Return,
}

// Where a text stops being RFC 4180: the first stray byte, with what stands right before it; the quote of which the text ends inside; the CR with
// which it ends.
#[derive(Clone, Copy)]
pub enum TextFault {
    Stray(usize, Spot),
    Unclosed(usize),
    Return(usize),
}

// What stands behind a byte that follows a field; nothing, where no text goes on with it.
fn ended(b: u8) -> Option<Spot>
    ensures { EndedBy b result }
{
    match b {
        b',' => Some(Spot::Start),
        b'\r' => Some(Spot::Return),
        _ => None,
    }
}

// Behind a byte that follows an open quote and what stands between quotes.
fn in_quotes(b: u8) -> Option<Spot>
    ensures { NextSpot Spot.Inside b result }
{
    match b {
        b'"' => Some(Spot::Closed),
        b',' | b'\r' | b'\n' => Some(Spot::Inside),
        _ if quoted::is_text(b) => Some(Spot::Inside),
        _ => None,
    }
}

// Behind a byte, by what stands right before it.
fn next_spot(spot: Spot, b: u8) -> Option<Spot>
    ensures { NextSpot spot b result }
{
    match spot {
        Spot::Start if b == b'"' => Some(Spot::Inside),
        Spot::Start if quoted::is_text(b) => Some(Spot::Plain),
        Spot::Start => ended(b),
        Spot::Plain if quoted::is_text(b) => Some(Spot::Plain),
        Spot::Plain => ended(b),
        Spot::Inside => in_quotes(b),
        Spot::Closed if b == b'"' => Some(Spot::Inside),
        Spot::Closed => ended(b),
        Spot::Return if b == b'\n' => Some(Spot::Start),
        Spot::Return => None,
    }
}

// Where the field starts that a byte at i belongs to.
fn field_of(spot: Spot, from: usize, i: usize) -> usize
    ensures { result ≡ field_start spot from i }
{
    match spot {
        Spot::Start => i,
        Spot::Plain | Spot::Inside | Spot::Closed | Spot::Return => from,
    }
}

// Where the text stops being RFC 4180.
pub fn text_fault(s: &[u8]) -> Option<TextFault>
    ensures { TextSays s.now result }
{
    let mut spot = Spot::Start;
    let mut field: usize = 0;
    for (i, b) in s.iter().enumerate() {
        field = field_of(spot, field, i);
        let Some(behind) = next_spot(spot, *b) else {
            return Some(TextFault::Stray(i, spot));
        };
        spot = behind;
    }
    match spot {
        Spot::Start | Spot::Plain | Spot::Closed => None,
        Spot::Inside => Some(TextFault::Unclosed(field)),
        Spot::Return => Some(TextFault::Return(s.len() - 1)),
    }
}
