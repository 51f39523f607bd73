// IEEE 754 doubles (document 02, P6): from their bits, whether they are finite, and to the nearest whole number, with whether that was exact (P7).
//
// What a double is, and its products, stands in the kit's logic (`lib.Ieee`). What is hard is the nearest whole number, halves away from
// zero: it is worked out on the bits, and said of the double's exact value. A NaN has no bits of its own in Rattle, so it is made, never read.
#![tactic(auto)]

ghost use Rattle.std.specs.Prelude.{◌≡◌, pos, Some};
ghost use Rattle.std.specs.Float.Ieee as Ieee;
ghost use Rattle.std.specs.Float.{binary64};
ghost use Rattle.arithmetic.specs.decides.Decides.{Decides};
ghost use Rattle.arithmetic.specs.signed.Whole.{amount};
ghost use Rattle.doubles.specs.Doubles.{Finite};
ghost use Rattle.doubles.specs.Answers.{NearestIs};

use arithmetic::signed::Amount;

// The weight of a pattern's sign.
const SIGN: u64 = 0x8000000000000000;

// The weight of its exponent's field, and of the leading digit, which has no bit: the other 52 stand below the field.
const FIELD: u64 = 0x10000000000000;

// The pattern of an infinity above zero.
const ENDLESS: u64 = 0x7FF0000000000000;

// The first whole number of more than 32 bits.
const BEYOND: u64 = 0x100000000;

// A whole number of at most 32 bits that a double goes to, and whether the double is that number exactly (02, P7: "Every rounding is to tell also whether it
// was exact").
#[derive(Clone, Copy)]
pub struct Whole {
    pub amount: Amount,
    pub exact: bool,
}

// The double that a pattern of 64 bits stands for.
pub fn of_bits(bits: u64) -> f64
    ensures { result ≡ Ieee.of_bits binary64 bits }
{
    // beyond the pattern of an infinity, whatever the sign: not a number
    if ENDLESS < bits % SIGN {
        return 0.0 / 0.0;
    }
    f64::from_bits(bits)
}

// Whether a double is finite: neither an infinity nor not a number. By comparisons, since the library's doubles have no `is_finite` and no `is_nan`.
pub fn is_finite(x: f64) -> bool
    ensures { Decides result (Finite x) }
{
    let endless = 1.0 / 0.0;
    (x < endless) & (-endless < x)
}

// The nearest whole number, halves away from zero; none where the nearest has more than 32 bits, or there is no nearest one.
pub fn nearest(x: f64) -> Option<Whole>
    ensures { NearestIs x result }
{
    if x != x {
        return None;
    }
    nearest_of(f64::to_bits(x))
}

// The same by a double's bits. From a half on it is its digits over 2^(1075 - field), and half of that power is added before dividing.
fn nearest_of(bits: u64) -> Option<Whole>
    ensures { NearestIs (Ieee.of_bits binary64 bits) result }
{
    let magnitude = bits % SIGN;
    let field = magnitude / FIELD;
    // 2^32 and more, and what is not finite
    if 1054 < field {
        return None;
    }
    // zero, of either sign
    if magnitude == 0 {
        return Some(nothing(true));
    }
    // what else is less than a half
    if field < 1022 {
        return Some(nothing(false));
    }
    let digits = FIELD + bits % FIELD;
    let half = 1u64 << (1074 - field);
    let unit = 2 * half;
    let raised = digits + half;
    let size = arithmetic::rounding::down(raised, unit).value;
    if BEYOND <= size {
        return None;
    }
    // asked of the digits as they are: with half a unit added, 2.5 would leave nothing, and 3 something
    let exact = arithmetic::rounding::down(digits, unit).exact;
    let minus = SIGN <= bits;
    Some(Whole {
        amount: Amount { minus, size },
        exact,
    })
}

// The number 0, which has no sign.
fn nothing(exact: bool) -> Whole
    ensures { result ≡ record { amount = amount (pos 0); exact = exact } }
{
    let amount = Amount {
        minus: false,
        size: 0,
    };
    Whole { amount, exact }
}
