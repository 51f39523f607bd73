// The coefficients of fills: what is held for a soil and a slope (document 01, Earth pressure, for 002, clause 5.7.2; 02, P4).
//
// They come as an array of arrays, soil by slope, with a mark for the places at which nothing is held. A number that no fill book may
// give is no coefficient, so that the rules' products fit a word whatever array comes.
ghost use Rattle.std.specs.Prelude.{◌≡◌, ◌≤◌};
ghost use Rattle.earth.specs.coefficients.Lent.{fill_of};

// A place at which nothing is held.
const BLANK: u32 = 0;

// "value (1 to 40,000)" (02, P4).
const HIGHEST: u32 = 40_000;

// What is held for a soil and a slope, each from 1 to 5.
pub(crate) fn look_up(held: [[u32; 5]; 5], soil: u64, slope: u64) -> Option<u32>
    requires { (1 ≤ soil) × (soil ≤ 5) × (1 ≤ slope) × (slope ≤ 5) }
    ensures { result ≡ fill_of held soil slope }
{
    let i = (soil - 1) as usize;
    let j = (slope - 1) as usize;
    let k = held[i][j];
    if k == BLANK {
        return None;
    }
    if HIGHEST < k {
        return None;
    }
    Some(k)
}
