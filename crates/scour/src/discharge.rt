// The discharge for which a foundation is designed (document 01, River rules, for 002, clause 4.4): Qf, from the discharge
// and the catchment.
//
// The share falls with the catchment, in three pieces that meet. The products fit a word by nothing but the bounds of both.
ghost use Rattle.std.specs.Prelude.{◌≤◌};
ghost use Rattle.scour.specs.discharge.Discharge.{FoundationDischarge};

// 4.4: where the first and the second piece of the share end, in km².
const FIRST_TO: u64 = 500;

const SECOND_TO: u64 = 5_000;

// 4.4: Qf for a discharge and a catchment: 13/10 of the discharge to 500 km², from there a share that falls evenly to 12/10 at 5,000,
// and on to 11/10 at 25,000.
pub fn foundation_discharge(q: u64, z: u64) -> u64
    requires { (q ≤ 50000000) × (z ≤ 25000) }
    ensures { FoundationDischarge q z result }
{
    if z <= FIRST_TO {
        return arithmetic::rounding::up(13 * q, 10).value;
    }
    if z <= SECOND_TO {
        return arithmetic::rounding::up(q * (59000 - z), 45000).value;
    }
    arithmetic::rounding::up(q * (245000 - z), 200000).value
}
