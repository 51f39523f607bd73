// A job, taken up row by row (document 01, the job book; refusal 4): a value with a method that takes it, and hands
// back the next job beside an answer.
//
// The promise is exact for every value, and not only for those that a book gives: a row is taken exactly if it is in place, and then the
// next job is this job with exactly that row more; a row that is refused leaves the job as it stood. Whether a row is in place is decided
// first, from what `stages` needs of it, so that the copies of a job are few.
#![tactic(auto)]

pub mod misplaced;
pub mod stages;

ghost use Rattle.std.specs.Prelude.{◌≡◌, ◌<◌};
ghost use Rattle.kinds.specs.declared.Role.TheVariants.{Base, Load};
ghost use Rattle.jobs.specs.Blank.{based, no_job};
ghost use Rattle.jobs.specs.Place.{with_row};
ghost use Rattle.jobs.specs.Taking.{TakenIs};

use kinds::{Numbers, Role, Row};
use rows::keys::{Key, Keyed};
use rows::refusals::Refusal;
use stages::Stage;

// A job as it stands: its key, and the numbers of its rows, blank where it has none. The load rows stand in an array, since what no caller
// sees fail cannot allocate.
#[derive(Clone, Copy)]
pub struct Job {
    pub stage: Stage,
    pub key: Key,
    pub base: Numbers,
    pub scour: Numbers,
    pub clearance: Numbers,
    pub count: usize,
    pub loads: [Row; 16],
}

// What became of a row that was taken: it joined the job before it, or it started the next.
#[derive(Clone, Copy)]
pub enum Took {
    Joined,
    Started,
}

// What became of a row, or why it is refused; and the job behind it: 01 names this form, the next job beside an answer.
#[derive(Clone, Copy)]
pub struct Taken {
    pub answer: Result<Took, Refusal>,
    pub job: Job,
}

// A job at a stage, with a row for its base and no other rows.
fn fresh(stage: Stage, row: Keyed) -> Job
    ensures { result ≡ based stage row }
{
    let blank = rows::keys::blank_row().row;
    Job {
        stage,
        key: row.key,
        base: row.row.numbers,
        scour: blank.numbers,
        clearance: blank.numbers,
        count: 0,
        loads: [blank; 16],
    }
}

// No job yet.
pub fn blank_job() -> Job
    ensures { result ≡ no_job }
{
    fresh(Stage::Unbegun, rows::keys::blank_row())
}

// The job with exactly this row more, which is no B row.
fn joined(role: Role, mut job: Job, row: Keyed) -> Job
    requires { (role ≡ Base → ⊥) × (role ≡ Load → job.count < 16) }
    ensures { result ≡ with_row role job row }
{
    match role {
        Role::Scour => {
            job.stage = Stage::Scoured;
            job.scour = row.row.numbers;
        }
        Role::Clearance => {
            job.stage = Stage::Crossed;
            job.clearance = row.row.numbers;
        }
        Role::Base | Role::Load => {
            job.loads[job.count] = row.row;
            job.count += 1;
        }
    }
    job
}

impl Job {
    // A row is taken up; a row that is refused leaves the job as it stood.
    pub fn take(self, row: Keyed) -> Taken
        ensures { TakenIs self row result }
    {
        let role = kinds::role_of(row.row.kind);
        let same = rows::keys::same_key(self.key, row.key);
        if !stages::fits(role, self.stage, self.count, same) {
            return Taken {
                answer: Err(Refusal::Misplaced),
                job: self,
            };
        }
        match role {
            Role::Base => Taken {
                answer: Ok(Took::Started),
                job: fresh(Stage::Dry, row),
            },
            Role::Scour | Role::Clearance | Role::Load => Taken {
                answer: Ok(Took::Joined),
                job: joined(role, self, row),
            },
        }
    }
}
