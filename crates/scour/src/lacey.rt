// Lacey's rules for scour (document 01, River rules, for 002, clauses 4.5.3, 4.6 and 6.9.1): the regime width, the depths in a
// wide and in a constricted waterway, and the depth needed below flood.
//
// The regime test takes all 64 bits of a word, and fits by nothing but the ranges in the table of kinds.
ghost use Rattle.std.specs.Prelude.{◌≤◌};
ghost use Rattle.arithmetic.specs.decides.Decides.{Decides};
ghost use Rattle.scour.specs.lacey.Lacey.{RegimeMet, RegimeDepth, ConstrictedDepth, DepthNeeded};

use arithmetic::rounding::Rounded;

// 4.5.3: 1.811 times 2.67, in hundred-thousandths, squared.
const REGIME: u64 = 483_537 * 483_537;
// 4.6.3: 0.473 in thousandths, cubed.
const LACEY: u64 = 473 * 473 * 473;
// 4.6.4: 1.338 in thousandths, cubed.
const CONSTRICTED: u64 = 1_338 * 1_338 * 1_338;
// 4.6.6: greatest scour in hundredths of Lacey's depth, reach by reach.
const REACHES: [u64; 5] = [125, 150, 175, 200, 275];
// 6.9.1: the depth needed in hundredths of the greatest scour.
const NEEDED: u64 = 133;

// 4.5.3: whether a waterway meets the regime width.
pub fn meets_regime(q: u64, w: u64) -> bool
    requires { (q ≤ 50000000) × (w ≤ 1300000) }
    ensures { Decides result (RegimeMet q w) }
{
    REGIME * q <= 10_000_000 * (w * w)
}

// 4.6.3: Lacey's depth where the regime width is met.
pub fn regime_depth(qf: u64, f: u64) -> Rounded
    requires { (qf ≤ 65000000) × (100 ≤ f) }
    ensures { RegimeDepth qf f result.value result.exact × (result.value ≤ 41000) }
{
    crate::cubes::depth_for(LACEY * qf, f)
}

// 4.6.4: Lacey's depth in a constricted waterway.
pub fn constricted_depth(q: u64, f: u64) -> Rounded
    requires { (q ≤ 50000) × (100 ≤ f) × (f ≤ 3000) }
    ensures { ConstrictedDepth q f result.value result.exact × (result.value ≤ 41000) }
{
    crate::cubes::depth_for(CONSTRICTED * (q * q), 1000 * f)
}

// 4.6.6 and 6.9.1: the depth needed below flood for a Lacey depth and a reach from 1 to 5. It is exact where the 1.33 is (document 02, P7),
// whatever was rounded before it.
pub fn depth_needed(depth: u64, reach: u64) -> Rounded
    requires { (depth ≤ 41000) × (1 ≤ reach) × (reach ≤ 5) }
    ensures { DepthNeeded depth reach result.value result.exact }
{
    let greatest = arithmetic::rounding::up(REACHES[(reach - 1) as usize] * depth, 100);
    arithmetic::rounding::up(NEEDED * greatest.value, 100)
}
