// What one load row gives to each sum over a set (document 01, Load sets).
//
// M sums 2Vx + 2Hy; at an edge V(B - 2x) or V(B + 2x) stands beside 2Hy. Each is a whole number, and is reckoned by its natural parts.
ghost use Rattle.std.specs.Prelude.{◌≡◌, ◌≤◌};
ghost use Rattle.arithmetic.specs.signed.Parts.{Small};
ghost use Rattle.sets.specs.Bounded.{BoundedLoad};
ghost use Rattle.sums.specs.steps.Sums.{arm_by, balance_at, terms_from};

use crate::{Balance, Sums};
use arithmetic::signed::Parts;
use sets::{Class, Load};

// What one row gives at an edge of a base of this width, where V stands so far toward the edge or so far away from it. The arm is taken
// twice, as x is in M; of the twist one part holds back and one pushes over.
#[tactic(auto, using(arithmetic::proofs::signed::Laws::times_low, arithmetic::proofs::signed::Laws::same_parts), unfolding(crate::specs::steps::Sums::arm_by, crate::specs::steps::Sums::balance_at))]
fn balance_by(width: u64, v: Parts, toward: u64, away: u64, holds: u64, pushes: u64) -> Balance
    requires small { Small v }
    requires width_bound { (width ≤ 30000) × (toward ≤ 32000) × (away ≤ 32000) }
    requires holds_bound { (holds ≤ 3000000000) × (pushes ≤ 3000000000) }
    ensures { result ≡ balance_at v (arm_by width toward away) holds pushes }
{
    let out = width + 2 * away;
    let back = 2 * toward;
    let arm = Parts {
        above: arithmetic::signed::excess(out, back),
        below: arithmetic::signed::excess(back, out),
    };
    let turned = v * arm;
    Balance {
        resisting: turned.above + 2 * holds,
        overturning: turned.below + 2 * pushes,
    }
}

// What one row gives; its place is the number that it counts in a set.
pub fn terms_of(width: u64, load: Load, place: u64) -> Sums
    requires width_bound { width ≤ 30000 }
    requires bounded_load { BoundedLoad load }
    ensures { result ≡ terms_from width load place }
{
    let v = Parts::from(load.v);
    let x = Parts::from(load.x);
    let h = Parts::from(load.h);
    let twist = Parts::from(load.twist);
    let moment = v * x + twist;
    let m = moment + moment;
    let plus = balance_by(width, v, x.above, x.below, twist.below, twist.above);
    let minus = balance_by(width, v, x.below, x.above, twist.above, twist.below);
    let winds = u64::from(load.class == Class::Wind);
    let earthquakes = u64::from(load.class == Class::Earthquake);
    Sums {
        v,
        h,
        m,
        plus,
        minus,
        winds,
        earthquakes,
        rows: 1,
        set: place,
    }
}
