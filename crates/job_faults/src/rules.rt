// The refusals of a job by number (document 01, Refusals of a job; 02, P1, P3, P4 and P5), and whether a row shows one.
//
// Each test is exact for every row that it is asked of; those that look up a coefficient or work out a depth are asked only past 11, where every number is in its range.
ghost use Rattle.std.specs.Prelude.{◌≡◌, ◌≤◌, ◌<◌, take};
ghost use Rattle.arithmetic.specs.decides.Decides.{Decides};
ghost use Rattle.kinds.specs.declared.Kind.TheVariants.{E, S};
ghost use Rattle.kinds.specs.ranges.Range.{Ranged};
ghost use Rattle.kinds.specs.classes.Classes.{class_of, optional};
ghost use Rattle.current.specs.Current.{shaft_in};
ghost use Rattle.surcharge.specs.Surcharge.{abutment_in, NotAbove, TypeE};
ghost use Rattle.earth.specs.coefficients.Lent.{fill_of};
ghost use Rattle.earth.specs.Earth.{refused, backfill_in, Pushed};
ghost use Rattle.jobs.specs.stages.Rows.{HasScour};
ghost use Rattle.loads.specs.LoadRows.{NamesLive};
ghost use Rattle.job_faults.specs.rules.Shows.{Shows};
ghost use Rattle.job_faults.specs.rules.steps.Tests.{Gives, Obstructed, Past, PastRange};

use jobs::Job;
use jobs::stages::Stage;
use kinds::refusals::JobRefusal;
use kinds::{Kind, Numbers, Row};

// The refusals of a job, 11 to 20, in their order.
#[derive(Clone, Copy)]
pub enum Rule {
    OutOfRange,
    LargeCatchment,
    TooIntense,
    OverObstructed,
    NoFill,
    TooManyOptional,
    UpperBelowLower,
    NoTrain,
    NotAbove,
    TypeE,
}

// "More than 12 optional load rows" (document 01, Refusals of a job, 16): the row behind 12 others shows it.
const MOST: u64 = 12;

// All of them.
pub(crate) const IN_ORDER: [Rule; 10] = [
    Rule::OutOfRange,
    Rule::LargeCatchment,
    Rule::TooIntense,
    Rule::OverObstructed,
    Rule::NoFill,
    Rule::TooManyOptional,
    Rule::UpperBelowLower,
    Rule::NoTrain,
    Rule::NotAbove,
    Rule::TypeE,
];

// Whether the S row of a job, if it has one, gives a refusal (document 01, Refusals of a job, 12 and 13).
fn scour_gives(stage: Stage, row: Numbers, number: u8) -> bool
    requires { HasScour stage → Ranged S row }
    ensures { Decides result (Gives stage row number) }
{
    if !jobs::stages::has_scour(stage) {
        return false;
    }
    match scour::scour(row) {
        Ok(_) => false,
        Err(refusal) => number == u8::from(JobRefusal::from(refusal)),
    }
}

// Whether the C row of a job, if it has one, has a above A (document 01, Refusals of a job, 14).
fn is_obstructed(stage: Stage, row: Numbers) -> bool
    ensures { Decides result (Obstructed stage row) }
{
    jobs::stages::has_clearance(stage) && row.n2.size < row.n3.size
}

// Whether a row of a kind is optional (document 01, Refusals of a job, 16).
fn is_optional(kind: Kind) -> bool
    ensures { Decides result (optional (class_of kind) ≡ 1) }
{
    kinds::classes::optional_count(kinds::classes::class_of(kind)) == 1
}

// Whether a W row has upper below lower (02, P1, 17).
fn is_below(row: Numbers) -> bool
    ensures { Decides result ((shaft_in row).upper < (shaft_in row).lower) }
{
    row.n4.size < row.n5.size
}

// Whether the length of a G row is not above B (02, P5, 19).
fn is_not_above(row: Numbers) -> bool
    ensures { Decides result (NotAbove (abutment_in row)) }
{
    u64::from(row.n5.size) <= surcharge::width_at(row)
}

// Whether the soil of a G row is of type e (02, P5, 20).
fn is_type_e(row: Numbers) -> bool
    ensures { Decides result (TypeE (abutment_in row)) }
{
    row.n3.size == 5
}

// Whether nothing is held for an E row (02, P4, 15), which is the one refusal of a row in range.
fn is_blank(held: [[u32; 5]; 5], row: Numbers) -> bool
    requires { Ranged E row }
    ensures { Decides result (Pushed (fill_of held) (backfill_in row) (refused 15)) }
{
    earth::pressure(held, row).is_err()
}

// Whether a position names no row, or an LL row of the load rows, which are the first `count` (02, P3, 18).
fn names_live(rows: [Row; 16], count: usize, train: u32) -> bool
    ensures { Decides result (NamesLive (take count rows) train) }
{
    let n = loads::row_count(count);
    let position = train as usize;
    if n < position {
        return false;
    }
    if position < 1 {
        return true;
    }
    rows[position - 1].kind == Kind::LL
}

// Whether a row that stands behind so many optional rows of its job shows a refusal.
pub(crate) fn shows(held: [[u32; 5]; 5], job: Job, rule: Rule, before: u64, row: Row) -> bool
    requires { PastRange rule (Past job row) }
    ensures { Decides result (Shows (fill_of held) job rule before row) }
{
    let kind = row.kind;
    let numbers = row.numbers;
    let stage = job.stage;
    match rule {
        Rule::OutOfRange => !kinds::ranges::is_ranged(kind, numbers),
        Rule::LargeCatchment => kind == Kind::S && scour_gives(stage, job.scour, 12),
        Rule::TooIntense => kind == Kind::S && scour_gives(stage, job.scour, 13),
        Rule::OverObstructed => kind == Kind::C && is_obstructed(stage, job.clearance),
        Rule::NoFill => kind == Kind::E && is_blank(held, numbers),
        Rule::TooManyOptional => is_optional(kind) && before == MOST,
        Rule::UpperBelowLower => kind == Kind::W && is_below(numbers),
        Rule::NoTrain => !names_live(job.loads, job.count, kinds::train_of(row)),
        Rule::NotAbove => kind == Kind::G && is_not_above(numbers),
        Rule::TypeE => kind == Kind::G && is_type_e(numbers),
    }
}
