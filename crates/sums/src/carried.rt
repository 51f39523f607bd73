// The sums of a set as a walk through the sets carries them from one to the next: a row's terms are added or taken away by one addition
// each.
//
// Document 01's sums are whole numbers, and so is what leads from one set to its neighbour. Each is carried modulo 2^64, one below zero as
// so much less than 2^64. What is hard is that the sums are read back exactly, since all of them are small.
ghost use Rattle.std.specs.Prelude.{◌≡◌};
ghost use Rattle.sums.specs.steps.Sums.{Room};
ghost use Rattle.sums.specs.steps.Carried.{key_of, shift_of, moved, over_zero, from_zero, wind_count, earthquake_count, carried_set};

use crate::{Balance, Sums};

// N, the sum of H, M, the balance at the edges at +x and at -x, and the set's key: from its lowest bits up 8 for the number of wind rows, 8
// for that of earthquake rows, 16 for the set's number, and then how many rows it has. Words that wrap, and no i64, whose `+` would ask for bounds at each step.
#[derive(Clone, Copy, Default)]
pub struct Carried {
    pub n: u64,
    pub h: u64,
    pub m: u64,
    pub plus: Balance,
    pub minus: Balance,
    pub key: u64,
}

// The first number that stands for one below zero.
const BELOW_ZERO: u64 = 9_223_372_036_854_775_808;

// The numbers of wind and of earthquake rows are each below this.
const ROWS: u64 = 256;

// A key's marks, the numbers of wind and earthquake rows together, are below this.
const MARKS: u64 = 65_536;

// The sets of 16 rows.
const SETS: u64 = 65_536;

// The key of a set with these sums.
#[tactic(auto, unfolding(crate::specs::steps::Carried::key_of))]
fn key_of(sums: Sums) -> u64
    requires { Room 16 sums }
    ensures { result ≡ key_of sums }
{
    sums.winds + ROWS * sums.earthquakes + MARKS * (sums.set + SETS * sums.rows)
}

// What leads from the sums of a set to those of another, which has the rows of `up` more and those of `down` less.
#[tactic(auto, unfolding(crate::specs::steps::Carried::shift_of, crate::specs::steps::Carried::balance_shift, crate::specs::steps::Carried::wrapped))]
pub fn shift_of(up: Sums, down: Sums) -> Carried
    requires room { Room 16 up }
    requires room_2 { Room 16 down }
    ensures { result ≡ shift_of up down }
{
    Carried {
        n: (up.v.above + down.v.below).wrapping_sub(up.v.below + down.v.above),
        h: (up.h.above + down.h.below).wrapping_sub(up.h.below + down.h.above),
        m: (up.m.above + down.m.below).wrapping_sub(up.m.below + down.m.above),
        plus: Balance {
            resisting: up.plus.resisting.wrapping_sub(down.plus.resisting),
            overturning: up.plus.overturning.wrapping_sub(down.plus.overturning),
        },
        minus: Balance {
            resisting: up.minus.resisting.wrapping_sub(down.minus.resisting),
            overturning: up.minus.overturning.wrapping_sub(down.minus.overturning),
        },
        key: key_of(up).wrapping_sub(key_of(down)),
    }
}

// The sums of the neighbour.
#[tactic(auto, unfolding(crate::specs::steps::Carried::moved, crate::specs::steps::Carried::balance_moved))]
pub fn moved(from: Carried, by: Carried) -> Carried
    ensures { result ≡ moved from by }
{
    Carried {
        n: from.n.wrapping_add(by.n),
        h: from.h.wrapping_add(by.h),
        m: from.m.wrapping_add(by.m),
        plus: Balance {
            resisting: from.plus.resisting.wrapping_add(by.plus.resisting),
            overturning: from.plus.overturning.wrapping_add(by.plus.overturning),
        },
        minus: Balance {
            resisting: from.minus.resisting.wrapping_add(by.minus.resisting),
            overturning: from.minus.overturning.wrapping_add(by.minus.overturning),
        },
        key: from.key.wrapping_add(by.key),
    }
}

// What a carried number is above zero, and 0 where it is below.
#[tactic(auto, unfolding(crate::specs::steps::Carried::over_zero))]
pub fn over_zero(x: u64) -> u64
    ensures { result ≡ over_zero x }
{
    if x < BELOW_ZERO { x } else { 0 }
}

// How far a carried number is from zero.
#[tactic(auto, unfolding(crate::specs::steps::Carried::from_zero))]
pub fn from_zero(x: u64) -> u64
    ensures { result ≡ from_zero x }
{
    if x < BELOW_ZERO { x } else { u64::MAX - x + 1 }
}

// How many wind rows the set has whose sums are carried,
#[tactic(auto, unfolding(crate::specs::steps::Carried::wind_count))]
pub fn winds_in(carried: Carried) -> u64
    ensures { result ≡ wind_count carried }
{
    carried.key % ROWS
}

// how many earthquake rows,
#[tactic(auto, unfolding(crate::specs::steps::Carried::earthquake_count))]
pub fn earthquakes_in(carried: Carried) -> u64
    ensures { result ≡ earthquake_count carried }
{
    carried.key / ROWS % ROWS
}

// and its number.
#[tactic(auto, unfolding(crate::specs::steps::Carried::carried_set))]
pub fn set_in(carried: Carried) -> u64
    ensures { result ≡ carried_set carried }
{
    carried.key / MARKS % SETS
}
