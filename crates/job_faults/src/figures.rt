// The figures that were compared where a job is refused (where a refusal lies), each read from the row that shows it, or worked out from it as its rule does.
ghost use Rattle.std.specs.Prelude.{◌≡◌, ◌≤◌, ◌<◌, take};
ghost use Rattle.kinds.specs.ranges.Range.{InColumns, Ranged};
ghost use Rattle.earth.specs.coefficients.Lent.{fill_of};
ghost use Rattle.scour.specs.Scour.{waterway_in};
ghost use Rattle.loads.specs.LoadRows.{optionals};
ghost use Rattle.answer.specs.Rules.{AllInRange};
ghost use Rattle.job_faults.specs.Out.{fillings, OutOf};
ghost use Rattle.job_faults.specs.First.{StandsAt};
ghost use Rattle.job_faults.specs.Faults.{Lies, JobLies};
ghost use Rattle.job_faults.specs.rules.steps.Tests.{PastRange};
ghost use Rattle.job_faults.specs.steps.Figures.{FirstOut, Spread, fault_of_row};

use crate::rules::Rule;
use crate::{JobFault, Out};
use fields::Entry;
use jobs::Job;
use kinds::{Column, Columns, Numbers, Row};

// The range of a column, and the entry that stands in it.
#[derive(Clone, Copy)]
pub struct Filling {
    pub range: Column,
    pub entry: Entry,
}

// One of the columns n1 to n6, by how many stand before it, with its entry.
fn filling_at(columns: Columns, numbers: Numbers, place: usize) -> Filling
    requires { place < 6 }
    ensures { StandsAt (fillings columns numbers) place result }
{
    match place {
        0 => {
            let range = columns.n1;
            let entry = numbers.n1;
            Filling { range, entry }
        }
        1 => {
            let range = columns.n2;
            let entry = numbers.n2;
            Filling { range, entry }
        }
        2 => {
            let range = columns.n3;
            let entry = numbers.n3;
            Filling { range, entry }
        }
        3 => {
            let range = columns.n4;
            let entry = numbers.n4;
            Filling { range, entry }
        }
        4 => {
            let range = columns.n5;
            let entry = numbers.n5;
            Filling { range, entry }
        }
        _ => {
            let range = columns.n6;
            let entry = numbers.n6;
            Filling { range, entry }
        }
    }
}

// The first column that is out of range, where one is, by how many stand before it.
fn first_out(columns: Columns, numbers: Numbers) -> usize
    requires { InColumns columns numbers → ⊥ }
    ensures { FirstOut columns numbers result }
{
    let mut place: usize = 0;
    while place < 5 {
        let filling = filling_at(columns, numbers, place);
        let range = filling.range;
        if !kinds::ranges::is_in_range(range, filling.entry) {
            return place;
        }
        place = place + 1;
    }
    place
}

// The first column of a row that is out of range, where one is. As the sheet counts them, n1 is column 4.
fn out_of(position: usize, row: Row) -> Out
    requires { Ranged row.kind row.numbers → ⊥ }
    ensures { (result.row ≡ position) × OutOf row result }
{
    let kind = row.kind;
    let numbers = row.numbers;
    let columns = kinds::columns_of(kind);
    let place = first_out(columns, numbers);
    let filling = filling_at(columns, numbers, place);
    let range = filling.range;
    let entry = filling.entry;
    Out {
        row: position,
        kind,
        column: place + 4,
        entry,
        range,
    }
}

// q of an S row, where the constricted rule applies (document 01, River rules, for 002, 4.6.4).
fn intensity_of(row: Numbers) -> u64
    requires { (row.n1.size ≤ 50000000) × (row.n2.size ≤ 25000) × (1000 ≤ row.n4.size) }
    ensures { Spread (waterway_in row) result }
{
    let discharge = row.n1.size as u64;
    let catchment = row.n2.size as u64;
    let width = row.n4.size as u64;
    let qf = scour::discharge::foundation_discharge(discharge, catchment);
    arithmetic::rounding::up(1000 * qf, width).value
}

// How many of the load rows, which are the first `count`, are optional.
fn optional_rows(rows: [Row; 16], count: usize) -> u64
    ensures { result ≡ optionals (take count rows) }
{
    let n = loads::row_count(count);
    let mut optional: u64 = 0;
    let mut i: usize = 0;
    while i < n {
        let row = rows[i];
        let kind = row.kind;
        optional = optional + kinds::classes::optional_count(kinds::classes::class_of(kind));
        i = i + 1;
    }
    optional
}

// Where the refusal lies that is told by the numbers of the load row that shows it; of any other nothing is told so.
fn row_fault(rule: Rule, position: usize, row: Row) -> JobFault
    ensures { result ≡ fault_of_row rule position row }
{
    let numbers = row.numbers;
    match rule {
        Rule::OutOfRange => JobFault::Sound,
        Rule::LargeCatchment => JobFault::Sound,
        Rule::TooIntense => JobFault::Sound,
        Rule::OverObstructed => JobFault::Sound,
        Rule::NoFill => JobFault::NoFill {
            row: position,
            soil: numbers.n1.size,
            slope: numbers.n2.size,
        },
        Rule::TooManyOptional => JobFault::Sound,
        Rule::UpperBelowLower => JobFault::UpperBelowLower {
            row: position,
            upper: numbers.n4.size as u64,
            lower: numbers.n5.size as u64,
        },
        Rule::NoTrain => JobFault::NoTrain {
            row: position,
            named: kinds::train_of(row),
        },
        Rule::NotAbove => JobFault::NotAbove {
            row: position,
            length: numbers.n5.size as u64,
            width: surcharge::width_at(numbers),
        },
        Rule::TypeE => JobFault::TypeE { row: position },
    }
}

// Where the refusal lies that this row is the first to show.
pub(crate) fn fault_at(
    held: [[u32; 5]; 5],
    job: Job,
    rule: Rule,
    position: usize,
    row: Row,
) -> JobFault
    requires lies { Lies (fill_of held) job rule position (λ shown. shown ≡ row) }
    requires past_range { PastRange rule (AllInRange job) }
    ensures { JobLies (fill_of held) job result }
{
    match rule {
        Rule::OutOfRange => JobFault::OutOfRange(out_of(position, row)),
        Rule::LargeCatchment => JobFault::LargeCatchment {
            row: position,
            catchment: job.scour.n2.size as u64,
        },
        Rule::TooIntense => JobFault::TooIntense {
            row: position,
            intensity: intensity_of(job.scour),
        },
        Rule::OverObstructed => JobFault::OverObstructed {
            row: position,
            obstructed: job.clearance.n3.size as u64,
            area: job.clearance.n2.size as u64,
        },
        Rule::NoFill => row_fault(rule, position, row),
        Rule::TooManyOptional => {
            let rows = job.loads;
            JobFault::TooManyOptional {
                row: position,
                optional: optional_rows(rows, job.count),
            }
        }
        Rule::UpperBelowLower => row_fault(rule, position, row),
        Rule::NoTrain => row_fault(rule, position, row),
        Rule::NotAbove => row_fault(rule, position, row),
        Rule::TypeE => row_fault(rule, position, row),
    }
}
