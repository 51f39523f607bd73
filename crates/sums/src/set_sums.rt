// The sums over the rows of a set, and its totals as document 01 names them (Load sets).
ghost use Rattle.std.specs.Prelude.{◌≡◌, ◌≤◌};
ghost use Rattle.sets.specs.Bounded.{Bounded};
ghost use Rattle.sums.specs.TotalsOf.{totals_from};
ghost use Rattle.sums.specs.steps.Sums.{sums_from};

use crate::{Sums, Totals};
use sets::Loads;

// The sums over the rows of a set.
pub fn sums_of(width: u64, loads: Loads, set: u64) -> Sums
    requires width_bound { width ≤ 30000 }
    requires bounded { Bounded loads }
    ensures { result ≡ sums_from width loads set }
{
    let mut sums = crate::no_sums();
    for (i, load) in loads.rows().iter().enumerate() {
        if sets::holds(set, i) {
            sums = sums + crate::row_terms::terms_of(width, *load, 1 << i);
        }
    }
    sums
}

// N, the sum of H, M and the balance at each edge.
pub fn totals_of(width: u64, loads: Loads, set: u64) -> Totals
    requires width_bound { width ≤ 30000 }
    requires bounded { Bounded loads }
    ensures { result ≡ totals_from width loads set }
{
    let sums = sums_of(width, loads, set);
    let plus = sums.plus;
    let minus = sums.minus;
    let n = arithmetic::signed::difference(sums.v.above, sums.v.below);
    let h = arithmetic::signed::difference(sums.h.above, sums.h.below);
    let m = arithmetic::signed::difference(sums.m.above, sums.m.below);
    Totals {
        n,
        h,
        m,
        plus,
        minus,
    }
}
