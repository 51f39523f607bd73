// Where the refusal of a job lies (where a refusal lies; document 01, Refusals of a job, 11 to 16; 02, P1, P3, P4 and P5, 17 to 20): its number, the first row that shows it,
// and the figures that were compared.
//
// It is said of the job alone, and of every `Job` value. The numbers are asked in their order, and each of all the rows in the book's order, by one walk; past 11 every
// number is in its range, and the rules below it can be asked.
#![tactic(auto)]

mod figures;
mod rules;

ghost use Rattle.std.specs.Prelude.{◌≡◌, ◌<◌, length};
ghost use Rattle.earth.specs.coefficients.Lent.{fill_of};
ghost use Rattle.answer.specs.Rules.{AllInRange};
ghost use Rattle.job_faults.specs.First.{StandsAt};
ghost use Rattle.job_faults.specs.JobRows.{rows_in};
ghost use Rattle.job_faults.specs.Faults.{JobLies};
ghost use Rattle.job_faults.specs.rules.steps.Tests.{PastRange};
ghost use Rattle.job_faults.specs.steps.Ahead.{ahead};
ghost use Rattle.job_faults.specs.steps.Found.{FoundIs};

use fields::Entry;
use jobs::Job;
use jobs::stages::Stage;
use kinds::{Column, Kind, Row};
use rules::Rule;

// The first number of a job that is out of its range: its row by its position in the job, from 1, its column as the sheet counts them, what stands there, and the range.
#[derive(Clone, Copy)]
pub struct Out {
    pub row: usize,
    pub kind: Kind,
    pub column: usize,
    pub entry: Entry,
    pub range: Column,
}

// Where the refusal of a job lies: the row by its position in the job, from 1, and the figures that were compared.
#[derive(Clone, Copy)]
pub enum JobFault {
    Sound,
    OutOfRange(Out),
    LargeCatchment {
        row: usize,
        catchment: u64,
    },
    TooIntense {
        row: usize,
        intensity: u64,
    },
    OverObstructed {
        row: usize,
        obstructed: u64,
        area: u64,
    },
    NoFill {
        row: usize,
        soil: u32,
        slope: u32,
    },
    TooManyOptional {
        row: usize,
        optional: u64,
    },
    UpperBelowLower {
        row: usize,
        upper: u64,
        lower: u64,
    },
    NoTrain {
        row: usize,
        named: u32,
    },
    NotAbove {
        row: usize,
        length: u64,
        width: u64,
    },
    TypeE {
        row: usize,
    },
}

// How many rows stand before the load rows: B, and S and C where the job has them.
fn ahead_of(stage: Stage) -> usize
    ensures { result ≡ ahead stage }
{
    match stage {
        Stage::Unbegun => 1,
        Stage::Dry => 1,
        Stage::Scoured => 2,
        Stage::Crossed => 3,
    }
}

// How many rows a job has.
pub fn row_count(job: Job) -> usize
    ensures { result ≡ length (rows_in job) }
{
    let stage = job.stage;
    let ahead = ahead_of(stage);
    ahead + loads::row_count(job.count)
}

// The row of a job behind so many others.
fn row_at(job: Job, place: usize) -> Row
    requires { place < length (rows_in job) }
    ensures { StandsAt (rows_in job) place result }
{
    let stage = job.stage;
    let ahead = ahead_of(stage);
    if place < 1 {
        let numbers = job.base;
        return Row {
            kind: Kind::B,
            numbers,
        };
    }
    if ahead <= place {
        let loads = job.loads;
        return loads[place - ahead];
    }
    if place < 2 {
        let numbers = job.scour;
        return Row {
            kind: Kind::S,
            numbers,
        };
    }
    let numbers = job.clearance;
    Row {
        kind: Kind::C,
        numbers,
    }
}

// The first row of a job that shows a refusal, behind its position. How many optional rows were passed is counted on the way, for 16.
fn first_row(held: [[u32; 5]; 5], job: Job, rule: Rule) -> Option<(usize, Row)>
    requires { PastRange rule (AllInRange job) }
    ensures { FoundIs (fill_of held) job rule result }
{
    let n = row_count(job);
    let mut optional: u64 = 0;
    let mut i: usize = 0;
    while i < n {
        let row = row_at(job, i);
        if rules::shows(held, job, rule, optional, row) {
            return Some((i + 1, row));
        }
        let kind = row.kind;
        optional = optional + kinds::classes::optional_count(kinds::classes::class_of(kind));
        i = i + 1;
    }
    None
}

// Where the refusal of a job lies, by what is held for each soil and slope, 0 where nothing is. "Order as numbered".
pub fn job_fault(held: [[u32; 5]; 5], job: Job) -> JobFault
    ensures { JobLies (fill_of held) job result }
{
    for rule in rules::IN_ORDER {
        if let Some((position, row)) = first_row(held, job, rule) {
            return figures::fault_at(held, job, rule, position, row);
        }
    }
    JobFault::Sound
}
