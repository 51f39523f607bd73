// Earth pressure by document 002's semi-empirical method (document 01, Earth pressure; 002, 5.7.2; 02, P4): the thrust of an E row's
// fill, and its height above the base.
//
// The numbers of an E row are small enough for any coefficient up to 40,000, whichever book it comes from.
#![tactic(auto)]

pub mod coefficients;
mod thrust;

ghost use Rattle.std.specs.Prelude.{◌≡◌, Err};
ghost use Rattle.kinds.specs.refusals.Refusals.{refusal_number};
ghost use Rattle.earth.specs.coefficients.Lent.{fill_of};
ghost use Rattle.earth.specs.Earth.{backfill_in, refused};
ghost use Rattle.earth.specs.EarthRow.{Pressed, earth_told};

use kinds::pushes::Push;
use kinds::refusals::JobRefusal;
use kinds::{Kind, Numbers};

// The columns of an E row: soil and slope, each from 1 to 5, height and length in mm. Its phase is the load's.
#[derive(Clone, Copy)]
pub struct Backfill {
    pub soil: u64,
    pub slope: u64,
    pub height: u64,
    pub length: u64,
}

// Why an E row is refused: a number out of its range, or no coefficient held for its soil and slope.
#[derive(Clone, Copy)]
pub enum EarthRefusal {
    OutOfRange,
    NoCoefficient,
}

// The refusal of its job.
impl From<EarthRefusal> for JobRefusal {
    ghost from_gives = { λ refusal job. earth_told (Err refusal) ≡ refused (refusal_number job) };

    fn from(refusal: EarthRefusal) -> JobRefusal {
        match refusal {
            EarthRefusal::OutOfRange => JobRefusal::OutOfRange,
            EarthRefusal::NoCoefficient => JobRefusal::NoFill,
        }
    }
}

// An E row by its columns. The rules take them in words of 64 bits.
impl From<Numbers> for Backfill {
    ghost from_gives = { λ row backfill. backfill ≡ backfill_in row };

    fn from(row: Numbers) -> Backfill {
        Backfill {
            soil: u64::from(row.n1.size),
            slope: u64::from(row.n2.size),
            height: u64::from(row.n3.size),
            length: u64::from(row.n4.size),
        }
    }
}

// The thrust of an E row's fill and its height above the base, by what is held for each soil and slope, 0 where nothing is.
pub fn pressure(held: [[u32; 5]; 5], row: Numbers) -> Result<Push, EarthRefusal>
    ensures { Pressed (fill_of held) row (earth_told result) }
{
    if !kinds::ranges::is_ranged(Kind::E, row) {
        return Err(EarthRefusal::OutOfRange);
    }
    let backfill = Backfill::from(row);
    let Some(k) = coefficients::look_up(held, backfill.soil, backfill.slope) else {
        return Err(EarthRefusal::NoCoefficient);
    };
    Ok(Push {
        force: thrust::thrust_of(u64::from(k), backfill.height, backfill.length),
        arm: thrust::arm_of(backfill.height),
    })
}
