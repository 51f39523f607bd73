// The figure that a check shows of a set of load rows (document 01, Load sets), and whether it is exact (02, P7).
//
// The definition speaks of the whole numbers N, H and M, and the program of what each is above and below zero.
ghost use Rattle.arithmetic.specs.decides.Decides.{Decides};
ghost use Rattle.sets.specs.Bounded.{Bounded};
ghost use Rattle.sums.specs.steps.Sums.{Room};
ghost use Rattle.checks.specs.declared.Figure.{Figure};
ghost use Rattle.checks.specs.Order.{side};
ghost use Rattle.checks.specs.steps.Ranks.{RanksTold};
ghost use Rattle.checks.specs.Sized.{Sized};
ghost use Rattle.checks.specs.set_figures.Figures.{Shows, ShowsExactly};
ghost use Rattle.checks.specs.steps.BySums.{ShowsBySums, ExactBySums};

use crate::{Base, Check, Figure};
use arithmetic::rounding::Rounded;
use sets::Loads;
use sums::Sums;

// The rank of a check, of the sums of a set, and whether its figure is exact.
fn ranked_of(check: Check, base: Base, sums: Sums) -> Rounded
    requires sized { Sized base }
    requires room { Room 16 sums }
    ensures { RanksTold (side check) (ShowsBySums check base sums) (ExactBySums check base sums) result.value result.exact }
{
    let n = arithmetic::signed::excess(sums.v.above, sums.v.below);
    let h = arithmetic::signed::distance(sums.h.above, sums.h.below);
    let m = arithmetic::signed::distance(sums.m.above, sums.m.below);
    match check {
        Check::OP => crate::ranks::tip(sums.plus.resisting, sums.plus.overturning),
        Check::OM => crate::ranks::tip(sums.minus.resisting, sums.minus.overturning),
        Check::SL => crate::ranks::slide(base.friction, n, h),
        Check::PR => crate::ranks::press(base.width, base.length, n, m),
        Check::RK => crate::ranks::lean(base.width, n, m),
    }
}

// The figure that a check shows of a set.
pub fn figure_of(check: Check, base: Base, loads: Loads, set: u64) -> Figure
    requires sized { Sized base }
    requires bounded { Bounded loads }
    ensures { Shows check base loads set result }
{
    let sums = sums::set_sums::sums_of(base.width, loads, set);
    let ranked = ranked_of(check, base, sums);
    crate::figure_at(check, ranked.value)
}

// Whether the figure that a check shows of a set is exact (02, P7): nothing was rounded away.
pub fn exact_of(check: Check, base: Base, loads: Loads, set: u64) -> bool
    requires sized { Sized base }
    requires bounded { Bounded loads }
    ensures { (v : Figure) → Shows check base loads set v → Decides result (ShowsExactly check base loads set v) }
{
    let sums = sums::set_sums::sums_of(base.width, loads, set);
    let ranked = ranked_of(check, base, sums);
    ranked.exact
}
