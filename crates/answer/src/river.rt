// The river rows of a job (document 01, Refusals of a job and The printed answer): refusals 11 to 14 of its S and C rows, in their
// order, and the lines SC and CL.
//
// Each row gives its own refusal or its line, and of two refusals the lower is told. On rock no depth is needed, and still 12 and 13 apply;
// a C row stands only behind an S row, whose Q it takes.
ghost use Rattle.std.specs.Prelude.{◌≡◌};
ghost use Rattle.scour.specs.ScourRow.{scour_told};
ghost use Rattle.answer.specs.Columns.{base_of};
ghost use Rattle.answer.specs.river.steps.Says.{RiverSays};
ghost use Rattle.answer.specs.river.steps.Rows.{DepthGiven, ClearGiven, both};

use arithmetic::rounding::Rounded;
use arithmetic::signed::Amount;
use clearance::{ClearanceRefusal, VerticalClearance};
use jobs::Job;
use kinds::refusals::JobRefusal;
use lines::RiverLine;
use scour::{ScourRefusal, Waterway};

// The S row: it is refused on rock too, where no depth is needed. SC needs value <= limit, and is as exact as the 1.33 (02, P7).
fn depth_of(
    rock: bool,
    found: u64,
    answer: Result<Rounded, ScourRefusal>,
) -> Result<RiverLine, JobRefusal>
    ensures { DepthGiven rock found (scour_told answer) result }
{
    let needed = answer?;
    if rock {
        return Ok(RiverLine::Missing);
    }
    let value = Amount {
        minus: false,
        size: needed.value,
    };
    Ok(RiverLine::Shown {
        value,
        limit: found,
        passes: needed.value <= found,
        exact: needed.exact,
    })
}

// The C row. CL needs value >= limit, and a value below zero is never enough; it is as exact as the afflux (02, P7).
fn clear_of(answer: Result<VerticalClearance, ClearanceRefusal>) -> Result<RiverLine, JobRefusal>
    ensures { ClearGiven answer result }
{
    let clearance = answer?;
    let there = clearance.there;
    Ok(RiverLine::Shown {
        value: there,
        limit: clearance.needed,
        passes: !there.minus & (clearance.needed <= there.size),
        exact: clearance.exact,
    })
}

// What two parts of a job give, or the lower of their refusals: "Order as numbered".
pub(crate) fn both<A: Copy, B: Copy>(
    first: Result<A, JobRefusal>,
    second: Result<B, JobRefusal>,
) -> Result<(A, B), JobRefusal>
    ensures { result ≡ both first second }
{
    match first {
        Err(n) => match second {
            Err(m) => Err(n.min(m)),
            Ok(_) => Err(n),
        },
        Ok(a) => match second {
            Err(m) => Err(m),
            Ok(b) => Ok((a, b)),
        },
    }
}

// The lines SC and CL of a job's river rows, or the lowest of their refusals.
pub(crate) fn river_of(job: Job, rock: bool) -> Result<(RiverLine, RiverLine), JobRefusal>
    requires { rock ≡ (base_of job.base).rock }
    ensures { RiverSays job result }
{
    let waterway = Waterway::from(job.scour);
    let depth = if jobs::stages::has_scour(job.stage) {
        depth_of(rock, waterway.depth, scour::scour(job.scour))
    } else {
        Ok(RiverLine::Missing)
    };
    let clear = if jobs::stages::has_clearance(job.stage) {
        clear_of(clearance::clearance(job.clearance, waterway.discharge))
    } else {
        Ok(RiverLine::Missing)
    };
    both(depth, clear)
}
