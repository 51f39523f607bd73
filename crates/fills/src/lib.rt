// What two lent books of fills hold (02, P4): the members' own book and the common one, each five fields a row, and what both say for a
// member, soil and slope, own before common.
//
// What a fill book is stands in `specs/FillBook.antt`, with no reader in it. Each book is walked once, into words; what it holds for a member
// is then laid over what is held for all. Where the refusal of a book lies (8) stands in `faults`.
#![tactic(auto)]

mod digest;
pub mod faults;
pub mod fill_rows;
pub mod lookup;
mod reading;
pub mod table2_book;

ghost use Rattle.fills.specs.Values.{FiveByFive, ValuesGiven};
ghost use Rattle.fills.specs.steps.Laid.{Held, Laid};

use digest::Digest;
use fields::names::Name;
use fill_rows::Whose;

// The fills of a member laid over values, each at its soil and slope.
fn laid(fills: &Digest, member: Name, under: [[u32; 5]; 5]) -> [[u32; 5]; 5]
    requires held { Held fills.now }
    requires five_by_five { FiveByFive under }
    ensures { Laid fills.now member under result }
{
    // no row names a member with more than twelve letters
    if 12 < member.len {
        return under;
    }
    let key = digest::name_key(member);
    let mut held = under;
    for fill in fills.words() {
        let at = fill.key.low;
        if fill.key.high == key.high && at / 64 == key.low {
            let soil = (at / 8 % 8) as usize;
            let slope = (at % 8) as usize;
            held[soil - 1][slope - 1] = fill.value;
        }
    }
    held
}

// The values that the two books hold for each of the first n members, own before common, each at its place; and whether both books are accepted.
// Where one is refused (8) nothing is written.
// A flag is answered, since that is the one question, and no value stands beside it.
pub fn values_for(
    own: &[u8],
    common: &[u8],
    members: [Name; 64],
    n: usize,
    values: &mut [[[u32; 5]; 5]; 64],
) -> bool
    ensures { ValuesGiven own.now common.now members n values.old values.new result }
{
    let mut fills = Digest::new();
    if reading::read_rows(common, Whose::Common, &mut fills).is_err() {
        return false;
    }
    let nobody = fields::names::blank_name();
    let shared = laid(&fills, nobody, [[0u32; 5]; 5]);
    if reading::read_rows(own, Whose::Own, &mut fills).is_err() {
        return false;
    }
    for k in 0..n.min(64) {
        values[k] = laid(&fills, members[k], shared);
    }
    true
}
