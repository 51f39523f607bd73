// Warnings of a job that is not refused (where a refusal lies): what is lawful, and is yet more likely a slip of the pen than meant. They stand
// apart from the refusals, and nothing here touches the verdict.
//
// Each warning is one question, yes or no, of the load rows or of the answer, and is stated as that question (`specs/Warnings.antt`).
// That no service combination was checked is read off the lines of the answer; what it means, that none of I, II and III
// has a permitted set, is a theorem (`proofs/Served.antt`).
#![tactic(auto)]

ghost use Rattle.std.specs.Prelude.{◌≡◌, ◌*◌, ◌<◌, take};
ghost use Rattle.arithmetic.specs.decides.Decides.{Decides};
ghost use Rattle.kinds.specs.declared.Kind.TheVariants.{DL};
ghost use Rattle.warnings.specs.Warnings.{Among, Pushes, WayIs, JobWarned, RowWarned, Unserved};

use kinds::classes::Source;
use kinds::{Kind, Row};
use lines::{Answer, Line};

// The height above the base, in mm, below which an H is warned of: metres written for millimetres?
const EXPECTED_HEIGHT: u32 = 100;

// A way in which forces act: toward +x, or toward -x.
#[derive(Clone, Copy)]
pub enum Way {
    Forward,
    Backward,
}

// What is odd about the load rows of a job: no DL row; the way of the wind, and that of the earthquake, where these act one way only.
#[derive(Clone, Copy)]
pub struct JobWarnings {
    pub no_dead: bool,
    pub wind: Option<Way>,
    pub earthquake: Option<Way>,
}

// What is odd about a load row: its V stands outside the base; its H acts low.
#[derive(Clone, Copy)]
pub struct RowWarnings {
    pub outside: bool,
    pub low: bool,
}

// Whether a row is of the kind and has an H above 0, or, backward, one below 0.
fn pushes(row: &Row, kind: Kind, backward: bool) -> bool
    ensures { Decides result (Pushes kind backward row.now) }
{
    let h = row.numbers.n3;
    row.kind == kind && 0 < h.size && h.minus == backward
}

// Whether one of the rows pushes so.
fn some_push(rows: &[Row], kind: Kind, backward: bool) -> bool
    ensures { Decides result (Among (Pushes kind backward) rows.now) }
{
    rows.iter().any(|row| pushes(row, kind, backward))
}

// Whether there is a DL row.
fn has_dead(rows: &[Row]) -> bool
    ensures { Decides result (Among (λ row. row.kind ≡ DL) rows.now) }
{
    rows.iter().any(|row| row.kind == Kind::DL)
}

// The way in which the rows of a kind push, where they push one way only.
fn way_of(rows: &[Row], kind: Kind) -> Option<Way>
    ensures { WayIs kind rows.now result }
{
    match (some_push(rows, kind, false), some_push(rows, kind, true)) {
        (true, false) => Some(Way::Forward),
        (false, true) => Some(Way::Backward),
        (true, true) | (false, false) => None,
    }
}

// The warnings of a job's load rows, which are the first `count` of `rows`, at most 16.
pub fn job_warnings(rows: [Row; 16], count: usize) -> JobWarnings
    ensures { JobWarned (take count rows) result }
{
    let rows = &rows[..count.min(16)];
    JobWarnings {
        no_dead: !has_dead(rows),
        wind: way_of(rows, Kind::WL),
        earthquake: way_of(rows, Kind::SF),
    }
}

// Whether there is a V, and x lies outside a base of this width, both in mm; at the edge it stands within.
fn is_outside(width: u32, v: u32, x: u32) -> bool
    ensures { Decides result ((0 < v) × (width < 2 * x)) }
{
    0 < v && u64::from(width) < 2 * u64::from(x)
}

// Whether there is an H, and y, in mm, is lower than expected.
fn is_low(h: u32, y: u32) -> bool
    ensures { Decides result ((0 < h) × (y < 100)) }
{
    0 < h && y < EXPECTED_HEIGHT
}

// The warnings of a load row, on a base of this width in mm. Only a row that gives its own forces has V, x, H and y in its columns.
pub fn row_warnings(width: u32, row: Row) -> RowWarnings
    ensures { RowWarned width row result }
{
    let numbers = row.numbers;
    let own = kinds::classes::source_of(row.kind) == Source::Own;
    RowWarnings {
        outside: own && is_outside(width, numbers.n1.size, numbers.n2.size),
        low: own && is_low(numbers.n3.size, numbers.n4.size),
    }
}

// Whether no service combination was checked: OP, which each of I, II and III has where it is checked, is missing in all three. Of a refused job,
// which has no lines, the answer is yes too; the warning is of jobs that are not refused.
pub fn unserved(answer: Answer) -> bool
    ensures { Decides result (Unserved answer) }
{
    [answer.one, answer.two, answer.three]
        .iter()
        .all(|lines| matches!(lines.op, Line::Missing))
}
