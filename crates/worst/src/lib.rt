// The worst permitted set of a combination for each check, and the line that names it (document 01, Load sets; 02, P3).
//
// One walk goes through the ways in which trains may be there or not, and beside each through the choices of the rows that are left to choose.
// Neighbours differ by one row, and the sums are carried from one to the next; what is plainly no worse is passed over, and the rest is weighed
// in all checks at once. What is hard is that the promise of the walk names no order: it is only that no permitted set comes before the one that
// is named.
#![tactic(auto)]

mod choices;
mod step_table;
mod trains;

ghost use Rattle.std.specs.Prelude.{◌≡◌, ◌≤◌};
ghost use Rattle.sets.specs.Bounded.{Bounded};
ghost use Rattle.sets.specs.Led.{Led};
ghost use Rattle.sets.specs.steps.Deciding.{Arises};
ghost use Rattle.checks.specs.Sized.{Sized};
ghost use Rattle.checks.specs.steps.HasCheck.{HasCheck};
ghost use Rattle.worst.specs.Lines.{LineSays, line};
ghost use Rattle.weighing.specs.steps.Bounds.{Fitting};
ghost use Rattle.weighing.specs.steps.Weighs.{Low, Words};
ghost use Rattle.worst.specs.steps.Search.{FoundWorst, Walked, WalkedChoices};
ghost use Rattle.worst.specs.steps.Steps.{Ahead, Passed};

use checks::{Base, Check, TOP};
use lines::{Line, Lines};
use sets::{Combination, Loads};
use sums::carried::Carried;
use trains::Trains;
use weighing::Worst;
use weighing::bounds::Bounds;
use weighing::ranked::RankedSet;

// Where a walk stands: the step that it has reached, and the sums of the choice there.
#[derive(Clone, Copy)]
struct Standing {
    pub step: u64,
    pub carried: Carried,
}

// From one step to the next whose choice is not within the bounds, or to the last. On the way to step k the row changes whose number is that
// of the zeros behind the last 1 of k in binary; it is added and taken away by turns. No `for`: from past the last it stays where it stands.
#[inline(never)]
fn pass_over(
    steps: &[Carried; 32],
    last: u64,
    width: u64,
    bounds: Bounds,
    from: Standing,
) -> Standing
    requires width_bound { width ≤ 30000 }
    requires fitting { Fitting bounds }
    requires ahead { Ahead steps.now last from }
    ensures { Passed steps.now last width bounds from result }
{
    let mut carried = from.carried;
    let mut k = from.step;
    while k < last {
        k += 1;
        let row = k.trailing_zeros() as usize;
        let taken = ((k >> row) / 2 % 2) as usize;
        carried = sums::carried::moved(carried, steps[2 * row + taken]);
        if !weighing::bounds::within(width, bounds, carried) {
            return Standing { step: k, carried };
        }
    }
    Standing { step: k, carried }
}

// The worst so far with all choices beside these trains. A choice within the bounds of the worst so far is passed over, and the others are
// weighed.
fn walk_choices(
    combination: Combination,
    serves: bool,
    base: Base,
    loads: Loads,
    trains: Trains,
    before: Worst,
) -> Worst
    requires sized { Sized base }
    requires bounded { Bounded loads }
    requires low { Low before }
    requires words { Words before }
    ensures { WalkedChoices combination serves base loads trains before result }
{
    let width = base.width;
    let table = step_table::table_of(combination, width, loads, trains);
    let steps = table.steps;
    let first = table.first;
    let last = table.last;
    let mut worst = weighing::visit(combination, serves, base, first, before);
    let mut standing = Standing {
        step: 0,
        carried: first,
    };
    // no count: each turn goes on by as many steps as were passed over
    while standing.step < last {
        let bounds = weighing::bounds::bounds_of(serves, base, worst);
        standing = pass_over(&steps, last, width, bounds, standing);
        worst = weighing::visit(combination, serves, base, standing.carried, worst);
    }
    worst
}

// The worst of all choices beside all trains: every permitted set of the combination is one of them.
fn walk(combination: Combination, base: Base, loads: Loads) -> Worst
    requires sized { Sized base }
    requires bounded { Bounded loads }
    requires led { Led loads }
    requires arises { Arises combination loads }
    ensures { Walked combination base loads result }
{
    let serves = checks::service::serves(combination);
    let leaders = trains::leaders_of(combination, loads);
    let ways = trains::ways_of(leaders);
    let none = RankedSet { rank: TOP, set: 0 };
    let mut worst = Worst {
        op: none,
        om: none,
        sl: none,
        pr: none,
        rk: none,
    };
    for way in 0..ways {
        let trains = Trains {
            leaders,
            present: trains::present_in(leaders, way),
        };
        worst = walk_choices(combination, serves, base, loads, trains, worst);
    }
    worst
}

// The line of a check from the ranked set that the walk found. Whether its figure is exact is asked here, of the set that is named (02, P7).
fn line_at(
    combination: Combination,
    check: Check,
    base: Base,
    loads: Loads,
    found: RankedSet,
) -> Line
    requires sized { Sized base }
    requires bounded { Bounded loads }
    requires has_check { (found.set ≡ 0 → ⊥) → HasCheck combination check base }
    requires found_worst { HasCheck combination check base → FoundWorst combination check base loads found }
    ensures { LineSays combination check base loads result }
{
    let set = found.set;
    if set == 0 {
        return Line::Missing;
    }
    let figure = checks::figure_at(check, found.rank);
    let limit = checks::limits::limit_of(combination, check, base);
    let passes = checks::passing::passes(check, limit, figure);
    let exact = checks::set_figures::exact_of(check, base, loads, set);
    Line::Shown {
        figure,
        limit,
        set,
        passes,
        exact,
    }
}

// The lines of a combination: for each check that it has the worst figure over its permitted sets, and the set that is named for it.
pub fn worst_lines(combination: Combination, base: Base, loads: Loads) -> Lines
    requires sized { Sized base }
    requires bounded { Bounded loads }
    requires led { Led loads }
    ensures { (check : Check) → LineSays combination check base loads (line check result) }
{
    if !sets::arising::arises(combination, loads) {
        return lines::no_lines();
    }
    let worst = walk(combination, base, loads);
    Lines {
        op: line_at(combination, Check::OP, base, loads, worst.op),
        om: line_at(combination, Check::OM, base, loads, worst.om),
        sl: line_at(combination, Check::SL, base, loads, worst.sl),
        pr: line_at(combination, Check::PR, base, loads, worst.pr),
        rk: line_at(combination, Check::RK, base, loads, worst.rk),
    }
}
