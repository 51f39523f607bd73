// The verdict of a job that is not refused (document 01, The printed answer): A exactly if every line after it says Y.
//
// A line that is missing says nothing, and none of the lines may be left out. The verdict stands in the answer that it is about: what it
// says is said of the lines beside it.
ghost use Rattle.arithmetic.specs.decides.Decides.{Decides};
ghost use Rattle.lines.specs.verdicts.Verdict.{LineYes, LinesYes, RiverYes};
ghost use Rattle.lines.specs.verdicts.Judged.{Judged};

use crate::{Answer, Line, Lines, RiverLine, Verdict};

// Whether a line says Y, where there is one.
fn line_yes(line: Line) -> bool
    ensures { Decides result (LineYes line) }
{
    match line {
        Line::Missing => true,
        Line::Shown {
            figure: _,
            limit: _,
            set: _,
            passes,
            exact: _,
        } => passes,
    }
}

// Whether SC or CL says Y, where there is one.
fn river_yes(line: RiverLine) -> bool
    ensures { Decides result (RiverYes line) }
{
    match line {
        RiverLine::Missing => true,
        RiverLine::Shown {
            value: _,
            limit: _,
            passes,
            exact: _,
        } => passes,
    }
}

// Whether every line of a combination says Y.
fn lines_yes(lines: Lines) -> bool
    ensures { Decides result (LinesYes lines) }
{
    let op = lines.op;
    let om = lines.om;
    let sl = lines.sl;
    let pr = lines.pr;
    let rk = lines.rk;
    let op_yes = line_yes(op);
    let om_yes = line_yes(om);
    let sl_yes = line_yes(sl);
    let pr_yes = line_yes(pr);
    let rk_yes = line_yes(rk);
    op_yes & om_yes & sl_yes & pr_yes & rk_yes
}

// The answer of these lines: the lines as they are, and their verdict.
pub fn judged(
    one: Lines,
    two: Lines,
    three: Lines,
    four: Lines,
    depth: RiverLine,
    clear: RiverLine,
) -> Answer
    ensures { Judged one two three four depth clear result }
{
    let one_yes = lines_yes(one);
    let two_yes = lines_yes(two);
    let three_yes = lines_yes(three);
    let four_yes = lines_yes(four);
    let depth_yes = river_yes(depth);
    let clear_yes = river_yes(clear);
    let verdict = if one_yes & two_yes & three_yes & four_yes & depth_yes & clear_yes {
        Verdict::Accepted
    } else {
        Verdict::NotAccepted
    };
    Answer {
        verdict,
        one,
        two,
        three,
        four,
        depth,
        clear,
    }
}
