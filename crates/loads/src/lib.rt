// The loads of a job's load rows, or their refusal (document 01, refusals 11, 15 and 16 of a job; 02, P1, refusal 17, P3, refusal 18, P4, and P5, refusals 19 and 20).
//
// Everything above sees loads and no rows. One loop asks each row once, and another which row it names. The order of the refusals is over
// all the rows and by number, and past the rows of the job there stands no load.
#![tactic(auto)]

mod forces;

ghost use Rattle.std.specs.Prelude.{◌≡◌, ◌≤◌, take, length};
ghost use Rattle.arithmetic.specs.decides.Decides.{Decides};
ghost use Rattle.earth.specs.coefficients.Lent.{fill_of};
ghost use Rattle.loads.specs.LoadRows.{AllNamed};
ghost use Rattle.loads.specs.Answer.{LoadsAnswered};
ghost use Rattle.loads.specs.steps.Asking.{row_count, lowest, AskedIs};

use kinds::refusals::JobRefusal;
use kinds::{Kind, Row};
use sets::Loads;

// The load rows that a job may have (document 01, the job book).
const ROWS: usize = 16;

// The optional load rows that a job may have (document 01, Refusals of a job, 16).
const MOST_OPTIONAL: u64 = 12;

// What was asked of rows: the lowest number with which one of them is refused by itself, if any is, and how many rows are optional; and, where
// none is refused, the loads of the rows.
#[derive(Clone, Copy)]
struct Asked {
    first: Option<JobRefusal>,
    optional: u64,
    loads: Loads,
}

// The count of load rows that is looked at: the count given, at most the 16 that a job may have (document 01, the job book).
pub fn row_count(count: usize) -> usize
    ensures { (result ≡ row_count count) × (result ≤ 16) }
{
    count.min(ROWS)
}

// "Order as numbered": the lower of two refusals, either of which may be none.
fn lowest(first: Option<JobRefusal>, second: Option<JobRefusal>) -> Option<JobRefusal>
    ensures { result ≡ lowest first second }
{
    let (Some(one), Some(other)) = (first, second) else {
        return first.or(second);
    };
    Some(one.min(other))
}

// What the rows were asked, and their loads. An optional row counts whether or not it is refused, since 16 comes before 17.
fn asked_of(held: [[u32; 5]; 5], rows: &[Row]) -> Asked
    requires { length rows.now ≤ 16 }
    ensures { AskedIs (fill_of held) rows.now result }
{
    let mut loads = [sets::no_load(); 16];
    let mut first = None;
    let mut optional: u64 = 0;
    for (i, row) in rows.iter().enumerate() {
        let class = kinds::classes::class_of(row.kind);
        optional += kinds::classes::optional_count(class);
        match forces::load_of(held, *row, class) {
            Ok(load) => loads[i] = load,
            Err(refusal) => first = lowest(first, Some(refusal)),
        }
    }
    let loads = Loads {
        count: rows.len(),
        loads,
    };
    Asked {
        first,
        optional,
        loads,
    }
}

// Whether each row that names a row names an LL row among them, before or behind it (02, P3, refusal 18).
fn all_named(rows: &[Row]) -> bool
    requires { length rows.now ≤ 16 }
    ensures { Decides result (AllNamed rows.now) }
{
    for row in rows {
        let train = kinds::train_of(*row) as usize;
        if rows.len() < train {
            return false;
        }
        if 0 < train && rows[train - 1].kind != Kind::LL {
            return false;
        }
    }
    true
}

// The loads of a job's load rows, which are the first `count` of `rows`, at most 16; or the lowest of the refusals 11 and 15 to 20.
pub fn loads_of(held: [[u32; 5]; 5], rows: [Row; 16], count: usize) -> Result<Loads, JobRefusal>
    ensures { LoadsAnswered (fill_of held) rows count result }
{
    let rows = &rows[..row_count(count)];
    let asked = asked_of(held, rows);
    let crowded = (MOST_OPTIONAL < asked.optional).then_some(JobRefusal::TooManyOptional);
    let misled = (!all_named(rows)).then_some(JobRefusal::NoTrain);
    match lowest(lowest(asked.first, crowded), misled) {
        Some(refusal) => Err(refusal),
        None => Ok(asked.loads),
    }
}
