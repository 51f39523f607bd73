// One row of a book (document 01, "The job book" and "Refusals of a book"): read by its form, and taken up by the job
// before it; or refused with 3, without a form, or with 4, out of place.
//
// A row without a form is refused with 3 wherever it stands, so its place is not looked at.
ghost use Rattle.std.specs.Prelude.{◌≤◌, length, drop};
ghost use Rattle.csv_text.specs.rfc4180.Rfc4180.{Readable};
ghost use Rattle.book.specs.steps.Step.{StepIs};

use jobs::{Job, Took};
use rows::refusals::Refusal;

// What a row does, the job behind it, and where the next row starts.
#[derive(Clone, Copy)]
pub struct Step {
    pub way: Result<Took, Refusal>,
    pub job: Job,
    pub next: usize,
}

// The row that starts at a place.
pub(crate) fn step_at(s: &[u8], at: usize, job: Job) -> Step
    requires at_in_bounds { at ≤ length s.now }
    requires readable { Readable (drop at s.now) }
    ensures { StepIs s.now at job result }
{
    let read = rows::read_row(s, at);
    let Some(keyed) = read.row else {
        return Step {
            way: Err(Refusal::NoForm),
            job,
            next: read.next,
        };
    };
    let taken = job.take(keyed);
    Step {
        way: taken.answer,
        job: taken.job,
        next: read.next,
    }
}
