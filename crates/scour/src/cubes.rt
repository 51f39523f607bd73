// The least whole number whose cube, times a number, reaches another (document 01, River rules, for 002, clauses 4.6.3 and
// 4.6.4: "the least whole mm with"), and whether that is exact (document 02, P7): whether the one is equal to the other.
//
// What is hard is size. The cube roots are found by halving, and the cube times its number does not fit a word where the
// search begins: so the other side is divided first, and only cubes are compared.
ghost use Rattle.std.specs.Prelude.{◌*◌, ◌^◌, ◌≤◌, ◌<◌};
ghost use Rattle.arithmetic.specs.rounding.Rounding.{LeastReaching};

use arithmetic::rounding::Rounded;

// No depth of the table's ranges is above this, in mm.
const DEEPEST: u64 = 41_000;

// The least d with d³ at least t, by halving: all below low fall short, and high does not.
fn cube_up(t: u64) -> Rounded
    requires { t ≤ 41000 ^ 3 }
    ensures { LeastReaching (λ d. d ^ 3) t result.value result.exact }
{
    let mut low: u64 = 0;
    let mut high = DEEPEST;
    // by halving, over which no library method and no iterator goes
    while low < high {
        let middle = low + (high - low) / 2;
        if middle * middle * middle < t {
            low = middle + 1;
        } else {
            high = middle;
        }
    }
    let reached = high * high * high;
    Rounded {
        value: high,
        exact: reached == t,
    }
}

// The least d with d³ b at least a. It is exact where both the quotient and its root are.
pub(crate) fn depth_for(a: u64, b: u64) -> Rounded
    requires { (0 < b) × (a ≤ 41000 ^ 3 * b) }
    ensures { LeastReaching (λ d. d ^ 3 * b) a result.value result.exact × (result.value ≤ 41000) }
{
    let quotient = arithmetic::rounding::up(a, b);
    let root = cube_up(quotient.value);
    Rounded {
        value: root.value,
        exact: quotient.exact & root.exact,
    }
}
