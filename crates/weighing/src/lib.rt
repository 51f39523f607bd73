// The worst so far of each check, and what it comes to with one set more, where the combination permits that set (document 01, Load sets).
//
// A search goes on from one worst so far to the next with each set that it weighs. What is hard is that no order of going through the
// sets is part of what a line names, or of the laws by which a search finds it; and that a set without a row may not be weighed, since 0
// stands for no set yet.
#![tactic(auto)]

pub mod bounds;
pub mod ranked;

ghost use Rattle.std.specs.Prelude.{◌<◌};
ghost use Rattle.checks.specs.Sized.{Sized};
ghost use Rattle.sums.specs.steps.Carried.{carried_set};
ghost use Rattle.weighing.specs.steps.Weighs.{SmallCarried, Low, Weighs, Visits};

use checks::Base;
use ranked::RankedSet;
use sets::Combination;
use sums::carried::Carried;

// The worst so far of each check.
#[derive(Clone, Copy)]
pub struct Worst {
    pub op: RankedSet,
    pub om: RankedSet,
    pub sl: RankedSet,
    pub pr: RankedSet,
    pub rk: RankedSet,
}

// The worst so far of every check with one set more: PR always, OP, OM and SL too where the combination serves (I to III), RK on rock.
fn weigh(serves: bool, base: Base, carried: Carried, worst: Worst) -> Worst
    requires sized { Sized base }
    requires small_carried { SmallCarried carried }
    requires carried_nonzero { 0 < carried_set carried }
    requires low { Low worst }
    ensures { Weighs serves base carried worst result }
{
    let set = sums::carried::set_in(carried);
    let n = sums::carried::over_zero(carried.n);
    let m = sums::carried::from_zero(carried.m);
    let mut op = worst.op;
    let mut om = worst.om;
    let mut sl = worst.sl;
    let mut rk = worst.rk;
    if serves {
        let h = sums::carried::from_zero(carried.h);
        let plus = checks::ranks::tip_rank(carried.plus.resisting, carried.plus.overturning);
        let minus = checks::ranks::tip_rank(carried.minus.resisting, carried.minus.overturning);
        let slid = checks::ranks::slide_rank(base.friction, n, h);
        op = ranked::worse(op, plus, set);
        om = ranked::worse(om, minus, set);
        sl = ranked::worse(sl, slid, set);
    }
    let pressed = checks::ranks::press_rank(base.width, base.length, n, m);
    let pr = ranked::worse(worst.pr, pressed, set);
    if base.rock {
        let leaned = checks::ranks::lean_rank(base.width, n, m);
        rk = ranked::worse(rk, leaned, set);
    }
    Worst { op, om, sl, pr, rk }
}

// The worst so far with one set more, where its wind and earthquake rows may act together.
pub fn visit(
    combination: Combination,
    serves: bool,
    base: Base,
    carried: Carried,
    worst: Worst,
) -> Worst
    requires sized { Sized base }
    requires small_carried { SmallCarried carried }
    requires low { Low worst }
    ensures { Visits combination serves base carried worst result }
{
    let winds = sums::carried::winds_in(carried);
    let earthquakes = sums::carried::earthquakes_in(carried);
    let set = sums::carried::set_in(carried);
    if !sets::admission::admits(combination, winds, earthquakes, set) {
        return worst;
    }
    weigh(serves, base, carried, worst)
}
