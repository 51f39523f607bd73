// The two forces of a surcharge on an abutment and their heights above the base (document 02, P5, for 002, clause 5.8.2).
//
// Both cases of the clause are one: the load spreads as it goes down, to the depth h or, where that is beyond, to L - B; and over what it has spread
// by then, B and so much, which beyond is L. The products fit a word by nothing but the ranges in the table of kinds, Table 3 and the coefficients.
ghost use Rattle.std.specs.Prelude.{◌*◌, ◌≤◌, ◌<◌};
ghost use Rattle.surcharge.specs.force.Force.{quotient, Force, PartsAre};
ghost use Rattle.surcharge.specs.force.steps.Joint.{joint};

use crate::Parts;
use kinds::pushes::Push;

// A force that is so many kg, the quotient of two numbers, on each metre of the length, in kN.
fn force_of(over: u64, under: u64, length: u64) -> u64
    requires { (0 < under) × (over ≤ 302500 * under) × (length ≤ 60000) }
    ensures { Force length (quotient over under) result }
{
    let p = arithmetic::rounding::up(over, under).value;
    arithmetic::rounding::up(p * length * 980_665, 100_000_000_000).value
}

// Both parts, by the surcharge in kg/m, the coefficient in hundredths, and the width, the depth, how far down the load spreads, and the length in mm.
pub(crate) fn parts_of(
    total: u64,
    k: u64,
    width: u64,
    depth: u64,
    spread: u64,
    length: u64,
) -> Parts
    requires total_bound { (total ≤ 36300) × (k ≤ 100) × (1800 ≤ width) × (width ≤ 3000) }
    requires depth_bound { (depth ≤ 15000) × (spread ≤ depth) × (length ≤ 60000) }
    ensures { PartsAre length (joint total k width depth spread) result }
{
    let reach = width + spread;
    let first = Push {
        force: force_of(total * depth * k, 100 * reach, length),
        arm: arithmetic::rounding::up(depth, 2).value,
    };
    let second = Push {
        force: force_of(total * (spread * spread) * k, 200 * width * reach, length),
        arm: arithmetic::rounding::up(3 * depth - spread, 3).value,
    };
    Parts { first, second }
}
