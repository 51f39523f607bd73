// The ranks of OP and OM, SL, PR and RK (document 01, Load sets; 002, 5.16.2.5, 6.5.3 note), and whether a figure is exact (02, P7).
//
// Each figure has cases of its own before the division, whose ranks stand at either end, and PR has two rules, for a base that is pressed
// whole and for one that is pressed in part. Every product fits in 64 bits by the bounds of the sums. The search asks for ranks alone.
ghost use Rattle.std.specs.Prelude.{◌≡◌, ◌-◌, ◌^◌, ◌<◌, ◌≤◌};
ghost use Rattle.arithmetic.specs.rounding.Rounding.{Exactly};
ghost use Rattle.checks.specs.Order.{lowest, highest};
ghost use Rattle.checks.specs.steps.Ranks.{Ranks, RanksTold};
ghost use Rattle.checks.specs.ranks.Figures.{TipsBy, SlidesBy, PressesBy, LeansBy};
ghost use Rattle.checks.specs.steps.Rounded.{Tips, Slides, Presses, Leans};

use crate::TOP;
use arithmetic::rounding::Rounded;

// The mm² of 1 m²: lengths are in mm, and the pressure in kN/m².
const SQUARE_METRE: u64 = 1_000_000;

// The rank of a number where the highest is the worst: it falls as the number grows.
fn falling(figure: Rounded) -> Rounded
    ensures { (result.value ≡ 2 ^ 64 - 1 - figure.value) × (result.exact ≡ figure.exact) }
{
    let value = TOP - figure.value;
    Rounded {
        value,
        exact: figure.exact,
    }
}

// OP or OM, as its rank, and whether it is exact: "none" where nothing overturns.
pub(crate) fn tip(resisting: u64, overturning: u64) -> Rounded
    requires { resisting ≤ 2 ^ 40 }
    ensures { RanksTold lowest (Tips resisting overturning) (TipsBy Exactly resisting overturning) result.value result.exact }
{
    if overturning == 0 {
        return Rounded {
            value: TOP,
            exact: true,
        };
    }
    arithmetic::rounding::down(100 * resisting, overturning)
}

// SL, as its rank, and whether it is exact: 0 where N is not above 0, which takes no rounding and comes before "none".
pub(crate) fn slide(friction: u64, n: u64, h: u64) -> Rounded
    requires { (friction ≤ 1000) × (n ≤ 2 ^ 20) × (h ≤ 2 ^ 40) }
    ensures { RanksTold lowest (Slides friction n h) (SlidesBy Exactly friction n h) result.value result.exact }
{
    if n == 0 {
        return Rounded {
            value: 0,
            exact: true,
        };
    }
    if h == 0 {
        return Rounded {
            value: TOP,
            exact: true,
        };
    }
    arithmetic::rounding::down(friction * n, 10 * h)
}

// PR, as its rank, and whether it is exact: "off" first, then the rule of a base pressed whole, then that of one pressed in part.
pub(crate) fn press(width: u64, length: u64, n: u64, m: u64) -> Rounded
    requires width_nonzero { (0 < width) × (width ≤ 30000) × (0 < length) × (length ≤ 60000) }
    requires n_bound { (n ≤ 2 ^ 20) × (m ≤ 2 ^ 40) }
    ensures { RanksTold highest (Presses width length n m) (PressesBy Exactly width length n m) result.value result.exact }
{
    let full = n * width;
    if full <= m {
        return Rounded {
            value: 0,
            exact: true,
        };
    }
    if 3 * m <= full {
        return falling(arithmetic::rounding::up(
            SQUARE_METRE * (full + 3 * m),
            width * width * length,
        ));
    }
    falling(arithmetic::rounding::up(4 * SQUARE_METRE * (n * n), 3 * length * (full - m)))
}

// RK, as its rank, and whether it is exact: "off" where N is not above 0.
pub(crate) fn lean(width: u64, n: u64, m: u64) -> Rounded
    requires width_nonzero { (0 < width) × (width ≤ 30000) }
    requires n_bound { (n ≤ 2 ^ 20) × (m ≤ 2 ^ 40) }
    ensures { RanksTold highest (Leans width n m) (LeansBy Exactly width n m) result.value result.exact }
{
    if n == 0 {
        return Rounded {
            value: 0,
            exact: true,
        };
    }
    falling(arithmetic::rounding::up(1000 * m, 2 * (n * width)))
}

// The ranks alone, which a search compares: whether a figure is exact is asked of the set that is named, by the functions above.
//
// The rank of OP or OM.
pub fn tip_rank(resisting: u64, overturning: u64) -> u64
    requires { resisting ≤ 2 ^ 40 }
    ensures { Ranks lowest (Tips resisting overturning) result }
{
    tip(resisting, overturning).value
}

// The rank of SL.
pub fn slide_rank(friction: u64, n: u64, h: u64) -> u64
    requires { (friction ≤ 1000) × (n ≤ 2 ^ 20) × (h ≤ 2 ^ 40) }
    ensures { Ranks lowest (Slides friction n h) result }
{
    slide(friction, n, h).value
}

// The rank of PR.
pub fn press_rank(width: u64, length: u64, n: u64, m: u64) -> u64
    requires width_nonzero { (0 < width) × (width ≤ 30000) × (0 < length) × (length ≤ 60000) }
    requires n_bound { (n ≤ 2 ^ 20) × (m ≤ 2 ^ 40) }
    ensures { Ranks highest (Presses width length n m) result }
{
    press(width, length, n, m).value
}

// The rank of RK.
pub fn lean_rank(width: u64, n: u64, m: u64) -> u64
    requires width_nonzero { (0 < width) × (width ≤ 30000) }
    requires n_bound { (n ≤ 2 ^ 20) × (m ≤ 2 ^ 40) }
    ensures { Ranks highest (Leans width n m) result }
{
    lean(width, n, m).value
}
