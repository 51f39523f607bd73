// Water current on the shaft (document 02, P1; 002, 5.9.2): the force on a W row's shaft, and its height above the base.
//
// The numbers of a W row are just small enough: with 9.80665 as its smaller fraction, the product that is rounded fits a word.
#![tactic(auto)]

mod force;
mod table4;

ghost use Rattle.std.specs.Prelude.{◌≡◌, Err};
ghost use Rattle.kinds.specs.refusals.Refusals.{refusal_number};
ghost use Rattle.current.specs.Current.{shaft_in, refused};
ghost use Rattle.current.specs.CurrentRow.{CurrentSays, current_told};

use kinds::pushes::Push;
use kinds::refusals::JobRefusal;
use kinds::{Kind, Numbers};

// The columns of a W row: shape from 1 to 6, exposed area in hundredths of m², velocity in mm/s, upper and lower wetted height in mm above
// the base. Its phase is the load's.
#[derive(Clone, Copy)]
pub struct Shaft {
    pub shape: u64,
    pub area: u64,
    pub velocity: u64,
    pub upper: u64,
    pub lower: u64,
}

// Why a W row is refused: a number out of its range, or its upper wetted height below the lower.
#[derive(Clone, Copy)]
pub enum CurrentRefusal {
    OutOfRange,
    UpperBelowLower,
}

// The refusal of its job.
impl From<CurrentRefusal> for JobRefusal {
    ghost from_gives = { λ refusal job. current_told (Err refusal) ≡ refused (refusal_number job) };

    fn from(refusal: CurrentRefusal) -> JobRefusal {
        match refusal {
            CurrentRefusal::OutOfRange => JobRefusal::OutOfRange,
            CurrentRefusal::UpperBelowLower => JobRefusal::UpperBelowLower,
        }
    }
}

// A W row by its columns. The rules take them in words of 64 bits.
impl From<Numbers> for Shaft {
    ghost from_gives = { λ row shaft. shaft ≡ shaft_in row };

    fn from(row: Numbers) -> Shaft {
        Shaft {
            shape: u64::from(row.n1.size),
            area: u64::from(row.n2.size),
            velocity: u64::from(row.n3.size),
            upper: u64::from(row.n4.size),
            lower: u64::from(row.n5.size),
        }
    }
}

// The force of the current on a W row's shaft and its height above the base.
pub fn pressure(row: Numbers) -> Result<Push, CurrentRefusal>
    ensures { CurrentSays row (current_told result) }
{
    if !kinds::ranges::is_ranged(Kind::W, row) {
        return Err(CurrentRefusal::OutOfRange);
    }
    let shaft = Shaft::from(row);
    if shaft.upper < shaft.lower {
        return Err(CurrentRefusal::UpperBelowLower);
    }
    let k = table4::constant_of(shaft.shape);
    Ok(Push {
        force: force::force_of(k, shaft.area, shaft.velocity),
        arm: force::arm_of(shaft.upper, shaft.lower),
    })
}
