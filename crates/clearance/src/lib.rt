// The river rules of document 01 for clearance (002, clauses 4.7 and 4.8): the clearance that a C row has and needs, or its refusal, 11
// or 14.
//
// What is left of the clearance may be below zero: levels are added up on two sides, and only natural numbers are taken from each other.
#![tactic(auto)]

pub mod afflux;

ghost use Rattle.clearance.specs.ClearanceRow.{clearance_told, ClearanceSays};
ghost use Rattle.clearance.specs.Clear.{opening_of, refused};
ghost use Rattle.std.specs.Prelude.{◌≡◌, ◌≤◌, pos, ◌-ℤ◌, Err};
ghost use Rattle.kinds.specs.refusals.Refusals.{refusal_number};
ghost use Rattle.arithmetic.specs.signed.Whole.{worth, amount};

use arithmetic::signed::{Amount, Parts};
use kinds::refusals::JobRefusal;
use kinds::{Kind, Numbers};

// The columns of a C row: velocity in mm/s, area A and obstructed area a in tenths of m², and the levels of underside and flood in mm.
#[derive(Clone, Copy)]
pub struct Opening {
    pub velocity: u64,
    pub area: u64,
    pub obstructed: u64,
    pub underside: Amount,
    pub flood: Amount,
}

// What a C row is told: the clearance there is, underside - flood - afflux, and the clearance needed, in mm, and whether the afflux is exact.
#[derive(Clone, Copy)]
pub struct VerticalClearance {
    pub there: Amount,
    pub needed: u64,
    pub exact: bool,
}

// Why a C row is refused: a number out of its range, or a above A.
#[derive(Clone, Copy)]
pub enum ClearanceRefusal {
    OutOfRange,
    OverObstructed,
}

// The refusal of its job.
impl From<ClearanceRefusal> for JobRefusal {
    ghost from_gives = { λ refusal job. clearance_told (Err refusal) ≡ refused (refusal_number job) };

    fn from(refusal: ClearanceRefusal) -> JobRefusal {
        match refusal {
            ClearanceRefusal::OutOfRange => JobRefusal::OutOfRange,
            ClearanceRefusal::OverObstructed => JobRefusal::OverObstructed,
        }
    }
}

// A C row by its columns. The rules take them in words of 64 bits.
impl From<Numbers> for Opening {
    ghost from_gives = { λ row opening. opening ≡ opening_of row };

    fn from(row: Numbers) -> Opening {
        let underside = Amount {
            minus: row.n4.minus,
            size: u64::from(row.n4.size),
        };
        let flood = Amount {
            minus: row.n5.minus,
            size: u64::from(row.n5.size),
        };
        Opening {
            velocity: u64::from(row.n1.size),
            area: u64::from(row.n2.size),
            obstructed: u64::from(row.n3.size),
            underside,
            flood,
        }
    }
}

// The clearance that a C row has and needs, with the discharge of its job's S row.
pub fn clearance(row: Numbers, discharge: u64) -> Result<VerticalClearance, ClearanceRefusal>
    ensures { ClearanceSays row discharge (clearance_told result) }
{
    if !kinds::ranges::is_ranged(Kind::C, row) {
        return Err(ClearanceRefusal::OutOfRange);
    }
    let opening = Opening::from(row);
    if opening.area < opening.obstructed {
        return Err(ClearanceRefusal::OverObstructed);
    }
    let rise = afflux::afflux(opening.velocity, opening.area, opening.obstructed);
    Ok(VerticalClearance {
        there: clearance_under(opening.underside, opening.flood, rise.value),
        needed: afflux::clearance_needed(discharge),
        exact: rise.exact,
    })
}

// Underside - flood - afflux.
fn clearance_under(underside: Amount, flood: Amount, afflux: u64) -> Amount
    requires { (underside.size ≤ 9000000) × (flood.size ≤ 9000000) × (afflux ≤ 60000000000000) }
    ensures { result ≡ amount (worth underside -ℤ worth flood -ℤ pos afflux) }
{
    let upper = Parts::from(underside);
    let lower = Parts::from(flood);
    let height = upper.above + lower.below;
    let depth = upper.below + lower.above + afflux;
    arithmetic::signed::difference(height, depth)
}
