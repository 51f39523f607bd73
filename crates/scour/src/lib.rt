// The river rules of document 01 for scour, for an S row (002, clauses 4.4 to 4.6 and 6.9.1): the depth that it needs, or its refusal,
// 11 to 13.
//
// The regime test takes Q, the depths and q take Qf. Each rule bounds the number that it hands to the next.
#![tactic(auto)]

mod cubes;
pub mod discharge;
pub mod lacey;

ghost use Rattle.std.specs.Prelude.{◌≡◌, ◌≤◌, Err};
ghost use Rattle.kinds.specs.refusals.Refusals.{refusal_number};
ghost use Rattle.scour.specs.Scour.{waterway_in, ScourRule, refused};
ghost use Rattle.scour.specs.ScourRow.{scour_told, ScourSays};

use arithmetic::rounding::Rounded;
use kinds::refusals::JobRefusal;
use kinds::{Kind, Numbers};

// The columns of an S row: discharge Q in l/s, catchment in km², silt factor in thousandths, width of the waterway W in mm, reach, and
// depth of the foundation below flood in mm.
#[derive(Clone, Copy)]
pub struct Waterway {
    pub discharge: u64,
    pub catchment: u64,
    pub silt: u64,
    pub width: u64,
    pub reach: u64,
    pub depth: u64,
}

// Why an S row is refused: a number out of its range, a catchment above 25,000 km², or a constricted waterway with q above 50,000.
#[derive(Clone, Copy)]
pub enum ScourRefusal {
    OutOfRange,
    LargeCatchment,
    TooIntense,
}

// The largest catchment that 002 leaves to the rules (4.4), in km².
const LARGEST: u64 = 25_000;

// The most q for which the constricted rule is used (document 01, Refusals of a job, 13), in l/s on each metre.
const MOST_INTENSE: u64 = 50_000;

// The refusal of its job.
impl From<ScourRefusal> for JobRefusal {
    ghost from_gives = { λ refusal job. scour_told (Err refusal) ≡ refused (refusal_number job) };

    fn from(refusal: ScourRefusal) -> JobRefusal {
        match refusal {
            ScourRefusal::OutOfRange => JobRefusal::OutOfRange,
            ScourRefusal::LargeCatchment => JobRefusal::LargeCatchment,
            ScourRefusal::TooIntense => JobRefusal::TooIntense,
        }
    }
}

// An S row by its columns. The rules take them in words of 64 bits.
impl From<Numbers> for Waterway {
    ghost from_gives = { λ row waterway. waterway ≡ waterway_in row };

    fn from(row: Numbers) -> Waterway {
        Waterway {
            discharge: u64::from(row.n1.size),
            catchment: u64::from(row.n2.size),
            silt: u64::from(row.n3.size),
            width: u64::from(row.n4.size),
            reach: u64::from(row.n5.size),
            depth: u64::from(row.n6.size),
        }
    }
}

// The depth needed in mm by the columns of an S row, where they are in range, and whether it is exact.
fn scour_of(row: Waterway) -> Result<Rounded, ScourRefusal>
    requires { (row.discharge ≤ 50000000) × (100 ≤ row.silt) × (row.silt ≤ 3000) × (1000 ≤ row.width) × (row.width ≤ 1300000) × (1 ≤ row.reach) × (row.reach ≤ 5) }
    ensures { ScourRule row (scour_told result) }
{
    if LARGEST < row.catchment {
        return Err(ScourRefusal::LargeCatchment);
    }
    let qf = discharge::foundation_discharge(row.discharge, row.catchment);
    let depth = if lacey::meets_regime(row.discharge, row.width) {
        lacey::regime_depth(qf, row.silt).value
    } else {
        let intensity = arithmetic::rounding::up(1000 * qf, row.width).value;
        if MOST_INTENSE < intensity {
            return Err(ScourRefusal::TooIntense);
        }
        lacey::constricted_depth(intensity, row.silt).value
    };
    Ok(lacey::depth_needed(depth, row.reach))
}

// The depth that the foundation of an S row needs.
pub fn scour(row: Numbers) -> Result<Rounded, ScourRefusal>
    ensures { ScourSays row (scour_told result) }
{
    if !kinds::ranges::is_ranged(Kind::S, row) {
        return Err(ScourRefusal::OutOfRange);
    }
    scour_of(Waterway::from(row))
}
