// Surcharge behind an abutment (document 02, P5; 002, 5.8.1, 5.8.2 and 5.8.5): the two forces of a G row's live and dead load, and their heights above
// the base.
#![tactic(auto)]

mod force;
mod tables;

ghost use Rattle.std.specs.Prelude.{◌≡◌, Err};
ghost use Rattle.kinds.specs.refusals.Refusals.{refusal_number};
ghost use Rattle.surcharge.specs.Surcharge.{abutment_in, B, refused};
ghost use Rattle.surcharge.specs.SurchargeRow.{SurchargeSays, surcharge_told};

use kinds::pushes::Push;
use kinds::refusals::JobRefusal;
use kinds::{Kind, Numbers};

// The columns of a G row: standard of loading from 1 to 7, dead surcharge in kg/m, soil from 1 to 5, depth below formation level and length of
// the abutment in mm. Its phase is the load's.
#[derive(Clone, Copy)]
pub struct Abutment {
    pub standard: u64,
    pub dead: u64,
    pub soil: u64,
    pub depth: u64,
    pub length: u64,
}

// Both parts of a surcharge: P1, which presses alike from the formation level to the base, and P2, which is greatest at the formation level.
#[derive(Clone, Copy)]
pub struct Parts {
    pub first: Push,
    pub second: Push,
}

// Why a G row is refused: a number out of its range, a length not above Table 3's width, or soil of type e.
#[derive(Clone, Copy)]
pub enum SurchargeRefusal {
    OutOfRange,
    LengthNotAbove,
    SoilTypeE,
}

// The refusal of its job.
impl From<SurchargeRefusal> for JobRefusal {
    ghost from_gives = { λ refusal job. surcharge_told (Err refusal) ≡ refused (refusal_number job) };

    fn from(refusal: SurchargeRefusal) -> JobRefusal {
        match refusal {
            SurchargeRefusal::OutOfRange => JobRefusal::OutOfRange,
            SurchargeRefusal::LengthNotAbove => JobRefusal::NotAbove,
            SurchargeRefusal::SoilTypeE => JobRefusal::TypeE,
        }
    }
}

// A G row by its columns. The rules take them in words of 64 bits.
impl From<Numbers> for Abutment {
    ghost from_gives = { λ row abutment. abutment ≡ abutment_in row };

    fn from(row: Numbers) -> Abutment {
        Abutment {
            standard: u64::from(row.n1.size),
            dead: u64::from(row.n2.size),
            soil: u64::from(row.n3.size),
            depth: u64::from(row.n4.size),
            length: u64::from(row.n5.size),
        }
    }
}

// Table 3's width B of a G row. Outside the lines 1 to 7 it decides nothing, since 11 is told first.
pub fn width_at(row: Numbers) -> u64
    ensures { result ≡ B (abutment_in row) }
{
    let standard = u64::from(row.n1.size);
    if 7 < standard {
        return 0;
    }
    if standard < 1 {
        return tables::width_of(1);
    }
    tables::width_of(standard)
}

// The two forces of a G row's surcharge and their heights above the base.
pub fn pressure(row: Numbers) -> Result<Parts, SurchargeRefusal>
    ensures { SurchargeSays row (surcharge_told result) }
{
    if !kinds::ranges::is_ranged(Kind::G, row) {
        return Err(SurchargeRefusal::OutOfRange);
    }
    let abutment = Abutment::from(row);
    let width = tables::width_of(abutment.standard);
    if abutment.length <= width {
        return Err(SurchargeRefusal::LengthNotAbove);
    }
    if abutment.soil == 5 {
        return Err(SurchargeRefusal::SoilTypeE);
    }
    let total = tables::surcharge_of(abutment.standard) + abutment.dead;
    let k = tables::active_of(abutment.soil);
    let spread = abutment.depth.min(abutment.length - width);
    Ok(force::parts_of(total, k, width, abutment.depth, spread, abutment.length))
}
