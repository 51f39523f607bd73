// The bounds within which a set is no worse than the worst so far in any check (document 01, Load sets).
//
// Nearly every set of a search is plainly no worse, and is seen to be so by a few products: what it is to be worse is multiplied out once
// for each set that is weighed, and not divided for each that is not. What is hard is that a set within the bounds is never one that a line
// would name: neither a worse figure nor the first of a tie.
ghost use Rattle.std.specs.Prelude.{◌≡◌, ◌^◌, ◌≤◌, ◌<◌};
ghost use Rattle.arithmetic.specs.decides.Decides.{Decides};
ghost use Rattle.checks.specs.Sized.{Sized};
ghost use Rattle.weighing.specs.steps.Weighs.{Low, SmallCarried};
ghost use Rattle.weighing.specs.steps.Bounds.{later, bound_of, tied_above, lesser_number, lean_from, bounds_of, Fitting, PressedWithin, Within};

use crate::ranked::RankedSet;
use crate::{Worst, ranked};
use checks::{Base, TOP};
use sums::carried::Carried;

// A set is within a bound where `by` times what counts against it is at most `of` times what counts for it.
#[derive(Clone, Copy)]
pub struct Bound {
    pub by: u64,
    pub of: u64,
}

// The bounds of OP, OM and SL; those of NB + 3|M|, where the base is pressed whole, and of PR's rule for a part, in thousands; that of
// 1,000|M| by NB; and the key from which on a set that ties comes no earlier than the worst so far.
#[derive(Clone, Copy)]
pub struct Bounds {
    pub op: Bound,
    pub om: Bound,
    pub sl: Bound,
    pub whole: u64,
    pub part: u64,
    pub lean: u64,
    pub tied: u64,
}

// Below this a figure so far of OP, OM or SL is multiplied out, and the product fits a word; from here on only a set that shows "none" is
// within.
const MULTIPLIED_OUT: u64 = 16_777_216;

// Up to here a figure so far of PR, in kN/m², is multiplied out, and the product fits a word; one past it bounds as this does.
const MOST_PRESSED: u64 = 262_144;

// The same of RK, in thousandths: where a base leans no more, |M| is below NB, and PR is not "off".
const MOST_LEANED: u64 = 499;

// The mm² of 1 m²: lengths are in mm, and the pressure in kN/m².
const SQUARE_METRE: u64 = 1_000_000;

// A set's key is so many times its order among the sets that tie, and its marks.
const ORDER: u64 = 65_536;

// The later of two keys.
#[tactic(auto, unfolding(crate::specs::steps::Bounds::later))]
fn later(a: u64, b: u64) -> u64
    ensures { result ≡ later a b }
{
    a.max(b)
}

// The bound of OP, OM or SL, where it is weighed. Its figure is so many times what counts for a set over so many times what counts
// against it.
fn bound_of(weighed: bool, against: u64, favour: u64, rank: u64) -> Bound
    requires { against ≤ 10 }
    ensures { result ≡ bound_of weighed against favour rank }
{
    if !weighed {
        return Bound { by: 0, of: 0 };
    }
    if rank < MULTIPLIED_OUT {
        return Bound {
            by: against * (rank + 1),
            of: favour,
        };
    }
    Bound { by: 1, of: 0 }
}

// The key from which on a set that ties comes no earlier. Within the bounds a set ties only where both have the last of all ranks.
fn tied_from(weighed: bool, worst: RankedSet) -> u64
    requires { worst.set < 65536 }
    ensures { result ≡ tied_above weighed worst }
{
    if !weighed {
        return 0;
    }
    if worst.rank < TOP {
        return 0;
    }
    ORDER * ranked::tie_order(worst.set)
}

// One less than the figure of a rank of PR or RK, 0 where that is 0, and at most this.
#[tactic(auto, unfolding(crate::specs::steps::Bounds::lesser_number))]
fn number_below(most: u64, rank: u64) -> u64
    ensures { result ≡ lesser_number most rank }
{
    let shown = TOP - rank;
    most.min(shown.saturating_sub(1))
}

// The bound of RK, in half thousandths; on soil, of how far a base may lean for PR not to be "off".
fn lean_of(rock: bool, rank: u64) -> u64
    ensures { result ≡ lean_from rock rank }
{
    if rock {
        return 2 * number_below(MOST_LEANED, rank);
    }
    2 * MOST_LEANED
}

// The bounds of the worst so far.
pub fn bounds_of(serves: bool, base: Base, worst: Worst) -> Bounds
    requires sized { Sized base }
    requires low { Low worst }
    ensures { result ≡ bounds_of serves base worst }
{
    let width = base.width;
    let rock = base.rock;
    let pressed = number_below(MOST_PRESSED, worst.pr.rank);
    let edges = later(tied_from(serves, worst.op), tied_from(serves, worst.om));
    let rest = later(tied_from(serves, worst.sl), tied_from(rock, worst.rk));
    Bounds {
        op: bound_of(serves, 1, 100, worst.op.rank),
        om: bound_of(serves, 1, 100, worst.om.rank),
        sl: bound_of(serves, 10, base.friction, worst.sl.rank),
        whole: pressed * (width * width * base.length) / SQUARE_METRE,
        part: pressed * (3 * base.length) / 1000,
        lean: lean_of(rock, worst.rk.rank),
        tied: later(edges, rest),
    }
}

// Whether PR is within its bounds, by the rule of a base that is pressed whole or of one that is pressed in part.
fn pressed_within(bounds: Bounds, full: u64, n: u64, m: u64) -> bool
    requires fitting { Fitting bounds }
    requires full_bound { (full ≤ 2 ^ 35) × (n ≤ 2 ^ 20) × (m ≤ full) }
    ensures { Decides result (PressedWithin bounds full n m) }
{
    if 3 * m <= full {
        return full + 3 * m <= bounds.whole;
    }
    4000 * (n * n) <= bounds.part * (full - m)
}

// Whether a set is within the bounds: N is above zero, RK, PR, SL, OP and OM are within theirs, and it comes no earlier where it ties.
pub fn within(width: u64, bounds: Bounds, carried: Carried) -> bool
    requires width_bound { width ≤ 30000 }
    requires fitting { Fitting bounds }
    requires small_carried { SmallCarried carried }
    ensures { Decides result (Within width bounds carried) }
{
    let n = sums::carried::over_zero(carried.n);
    if n == 0 {
        return false;
    }
    let m = sums::carried::from_zero(carried.m);
    let full = n * width;
    if bounds.lean * full < 1000 * m {
        return false;
    }
    if !pressed_within(bounds, full, n, m) {
        return false;
    }
    let h = sums::carried::from_zero(carried.h);
    if bounds.sl.of * n < bounds.sl.by * h {
        return false;
    }
    if bounds.op.of * carried.plus.resisting < bounds.op.by * carried.plus.overturning {
        return false;
    }
    if bounds.om.of * carried.minus.resisting < bounds.om.by * carried.minus.overturning {
        return false;
    }
    bounds.tied <= carried.key
}
