// Whole numbers of either sign as sign and size, and as what they are above and below zero.
//
// Document 01's loads push up and down, forward and back. Its sums are of whole numbers; the code adds only natural
// numbers, so every amount is taken apart into what lies above and what lies below zero, and the difference of two sums
// comes last. A product's two parts are made of the factors' parts.
ghost use Rattle.std.specs.Prelude.{◌≡◌, ◌+◌, ◌-◌, ◌^◌, ◌<◌, pos, ◌-ℤ◌};
ghost use Rattle.arithmetic.specs.signed.Whole.{worth, amount};
ghost use Rattle.arithmetic.specs.signed.Parts.{parts_in, times, Small};

use std::ops::{Add, Mul};

// A whole number: its size, and whether it is below zero. Not an i64, which the difference of two numbers of a whole word does not fit.
#[derive(Clone, Copy, Default)]
pub struct Amount {
    pub minus: bool,
    pub size: u64,
}

// What a whole number is above zero, and what it is below zero.
#[derive(Clone, Copy, Default)]
pub struct Parts {
    pub above: u64,
    pub below: u64,
}

// The difference of two numbers, as an amount.
pub fn difference(a: u64, b: u64) -> Amount
    ensures { result ≡ amount (pos a -ℤ pos b) }
{
    if a < b {
        return Amount {
            minus: true,
            size: b - a,
        };
    }
    Amount {
        minus: false,
        size: a - b,
    }
}

// How far two numbers are apart.
pub fn distance(a: u64, b: u64) -> u64
    ensures { result ≡ (a - b) + (b - a) }
{
    a.abs_diff(b)
}

// How far a number is past another, and 0 where it is not.
pub fn excess(a: u64, b: u64) -> u64
    ensures { result ≡ a - b }
{
    a.saturating_sub(b)
}

// What an amount is above and below zero.
impl From<Amount> for Parts {
    ghost from_gives = { λ a p. p ≡ parts_in (worth a) };

    fn from(a: Amount) -> Parts {
        if a.minus {
            return Parts {
                above: 0,
                below: a.size,
            };
        }
        Parts {
            above: a.size,
            below: 0,
        }
    }
}

// The parts of a sum, where they fit a word.
impl Add for Parts {
    type Output = Parts;

    ghost can_add = { λ p q. (p.above + q.above < 2 ^ 64) × (p.below + q.below < 2 ^ 64) };

    ghost add_gives = { λ p q sum. (sum.above ≡ p.above + q.above) × (sum.below ≡ p.below + q.below) };

    fn add(self, q: Parts) -> Parts {
        Parts {
            above: self.above + q.above,
            below: self.below + q.below,
        }
    }
}

// The parts of a product, of factors whose parts are at most 1,000,000.
impl Mul for Parts {
    type Output = Parts;

    ghost can_mul = { λ p q. Small p × Small q };

    ghost mul_gives = { λ p q product. product ≡ times p q };

    fn mul(self, q: Parts) -> Parts {
        let same = self.above * q.above + self.below * q.below;
        let opposite = self.above * q.below + self.below * q.above;
        Parts {
            above: same,
            below: opposite,
        }
    }
}
