// The answer of a job, by value, and the lines that document 01, The printed answer, gives it.
//
// `worst` gives the lines of a combination, `answer` those of the river, and `verdicts` here whether they all say Y. Their order stands
// once, as a list, in `specs/`, for the text and for the demands.
#![tactic(auto)]

pub mod verdicts;

ghost use Rattle.std.specs.Prelude.{◌≡◌};
ghost use Rattle.lines.specs.Lines.{no_lines};
ghost use Rattle.lines.specs.Alone.{Alone};

use arithmetic::signed::Amount;
use checks::Figure;

// The line of a check: value, limit, set, whether it says Y, and whether its value is exact, with nothing rounded away (02, P7).
#[derive(Clone, Copy)]
pub enum Line {
    Missing,
    Shown {
        figure: Figure,
        limit: u64,
        set: u64,
        passes: bool,
        exact: bool,
    },
}

// The lines of a combination.
#[derive(Clone, Copy)]
pub struct Lines {
    pub op: Line,
    pub om: Line,
    pub sl: Line,
    pub pr: Line,
    pub rk: Line,
}

// What VERDICT says: A, N, or the number of the job's refusal.
#[derive(Clone, Copy)]
pub enum Verdict {
    Accepted,
    NotAccepted,
    // a number, and no case of an enum: what `printing::answer_text` promises it promises of every u8
    Refused(u8),
}

// SC or CL: the value and the limit, in mm, whether it says Y, and whether the value is exact. Of SC the value is the depth needed, and the
// limit the foundation depth found; of CL underside - flood - afflux, and the clearance needed.
#[derive(Clone, Copy)]
pub enum RiverLine {
    Missing,
    Shown {
        value: Amount,
        limit: u64,
        passes: bool,
        exact: bool,
    },
}

// The verdict, the lines of combinations I to IV, and those of the river. Of a refused job only the verdict is printed.
#[derive(Clone, Copy)]
pub struct Answer {
    pub verdict: Verdict,
    pub one: Lines,
    pub two: Lines,
    pub three: Lines,
    pub four: Lines,
    pub depth: RiverLine,
    pub clear: RiverLine,
}

// The lines of a combination that is not checked (document 01, Load sets), and of a refused job.
pub fn no_lines() -> Lines
    ensures { result ≡ no_lines }
{
    Lines {
        op: Line::Missing,
        om: Line::Missing,
        sl: Line::Missing,
        pr: Line::Missing,
        rk: Line::Missing,
    }
}

// Whether VERDICT stands alone.
pub fn stands_alone(verdict: Verdict) -> bool
    ensures { Alone result verdict }
{
    match verdict {
        Verdict::Accepted | Verdict::NotAccepted => false,
        Verdict::Refused(_) => true,
    }
}
