// The force of a water current and its height above the base (document 02, P1, for 002, clauses 5.9.2.1 and 5.9.2.6).
//
// 9.80665 is taken as 196,133 in 20,000, each a fifth of 980,665 in 100,000; with 10^11 for the units of area, velocity and force what is divided
// by is 2·10^15. So the product is at most 1.12·10^19, and fits a word by nothing but the ranges in the table of kinds and the constants of
// Table 4.
ghost use Rattle.std.specs.Prelude.{◌≤◌};
ghost use Rattle.current.specs.force.Force.{Force, Arm};

// The force of a current, by the constant of the shaft's shape.
pub(crate) fn force_of(k: u64, area: u64, velocity: u64) -> u64
    requires { (k ≤ 79) × (area ≤ 20000) × (velocity ≤ 6000) }
    ensures { Force k area velocity result }
{
    arithmetic::rounding::up(
        k * area * (velocity * velocity) * 196_133,
        2_000_000_000_000_000,
    )
    .value
}

// How high the force of a current stands above the base: a third of the way down from the upper wetted height is twice the upper and once
// the lower, in three.
pub(crate) fn arm_of(upper: u64, lower: u64) -> u64
    requires { (upper ≤ 60000) × (lower ≤ upper) }
    ensures { Arm upper lower result }
{
    arithmetic::rounding::up(2 * upper + lower, 3).value
}
