// Molesworth's afflux, and the clearance needed above it (document 01, River rules, for 002, clauses 4.7 and 4.8).
//
// The afflux takes all 64 bits of a word, and fits by nothing but the ranges in the table of kinds.
ghost use Rattle.std.specs.Prelude.{◌≤◌};
ghost use Rattle.clearance.specs.afflux.Rules.{Afflux, ClearanceNeeded};

use arithmetic::rounding::Rounded;

// 4.7.1: Molesworth divides the square of the velocity in m/s by 17.88; of one in mm/s, for an afflux in mm, ten times the
// square is divided by 178,800.
const MOLESWORTH: u64 = 178_800;
// 4.7.1: Molesworth adds 0.01524 m: 15.24 mm, which is 2,724,912 over 178,800.
const ADDED: u64 = 2_724_912;

// 4.7.1: Molesworth's afflux, from the whole area A and the area a left at the obstruction, and whether it is exact (document 02, P7).
pub fn afflux(velocity: u64, area: u64, obstructed: u64) -> Rounded
    requires { (velocity ≤ 10000) × (area ≤ 100000) × (1 ≤ obstructed) × (obstructed ≤ area) }
    ensures { Afflux velocity area obstructed result.value result.exact }
{
    let whole_squared = area * area;
    let left_squared = obstructed * obstructed;
    arithmetic::rounding::up(
        (10 * (velocity * velocity) + ADDED) * (whole_squared - left_squared),
        MOLESWORTH * left_squared,
    )
}

// 4.8.1: where the discharges of the three lower clearances end, in l/s.
const FIRST_TO: u64 = 30_000;

const SECOND_TO: u64 = 300_000;

const THIRD_TO: u64 = 3_000_000;

// 4.8.1: the clearance needed: 600 mm to a discharge of 30,000 l/s, from there evenly to 1,200 at 300,000, then 1,500 to 3,000,000,
// and 1,800 above.
pub fn clearance_needed(q: u64) -> u64
    ensures { ClearanceNeeded q result }
{
    if q <= FIRST_TO {
        return 600;
    }
    if q <= SECOND_TO {
        return 600 + arithmetic::rounding::up(600 * (q - 30000), 270000).value;
    }
    if q <= THIRD_TO {
        return 1500;
    }
    1800
}
