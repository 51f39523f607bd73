// The limits of the checks that a combination has (document 01, Load sets; 002, 6.5.3 note, 6.7, 6.8). A third more and two fifths
// more are rounded down, and not taken as per cent.
ghost use Rattle.std.specs.Prelude.{◌≤◌};
ghost use Rattle.checks.specs.steps.HasCheck.{HasCheck};
ghost use Rattle.checks.specs.limits.Limits.{Limit};

use crate::{Base, Check};
use arithmetic::rounding;
use sets::Combination;

// The limit of RK, in thousandths of the base: N falls within its middle half (002, 6.5.3 note).
const MIDDLE_HALF: u64 = 250;

// The limit of a check that a combination has.
pub fn limit_of(combination: Combination, check: Check, base: Base) -> u64
    requires allowable_bound { base.allowable ≤ 10000 }
    requires has_check { HasCheck combination check base }
    ensures { Limit combination check base result }
{
    match check {
        // The factor against overturning, in hundredths (002, 6.8). IV has none, and is not asked.
        Check::OP | Check::OM => match combination {
            Combination::I => 200,
            Combination::II | Combination::III => 150,
            Combination::IV => 0,
        },
        // The factor against sliding, in hundredths (002, 6.8). IV has none, and is not asked.
        Check::SL => match combination {
            Combination::I => 150,
            Combination::II | Combination::III => 125,
            Combination::IV => 0,
        },
        // In kN/m²: the allowable pressure, with a third more in II and III and two fifths more in IV (002, 6.7).
        Check::PR => match combination {
            Combination::I => base.allowable,
            Combination::II | Combination::III => rounding::down(4 * base.allowable, 3).value,
            Combination::IV => rounding::down(7 * base.allowable, 5).value,
        },
        Check::RK => MIDDLE_HALF,
    }
}
