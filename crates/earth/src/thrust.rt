// The thrust of a fill and its height above the base (document 01, Earth pressure, for 002, clause 5.7.2).
//
// The product fits a word by nothing but the ranges in the table of kinds, for any coefficient up to 40,000.
ghost use Rattle.std.specs.Prelude.{◌≤◌};
ghost use Rattle.earth.specs.thrust.Thrust.{Thrust, Arm};

// The thrust of a fill.
pub(crate) fn thrust_of(k: u64, height: u64, length: u64) -> u64
    requires { (k ≤ 40000) × (height ≤ 15000) × (length ≤ 60000) }
    ensures { Thrust k height length result }
{
    arithmetic::rounding::up(k * (height * height) * length, 2_000_000_000_000).value
}

// How high the thrust of a fill stands above the base.
pub(crate) fn arm_of(height: u64) -> u64
    ensures { Arm height result }
{
    arithmetic::rounding::up(height, 3).value
}
