// What the load rows of a set sum to (document 01, Load sets): N, the sum of H, M and what turns about each edge; and whether a
// combination permits the set, by the wind and earthquake rows among them.
//
// Document 01 sums whole numbers, and the program adds what each is above and below zero, row by row.
#![tactic(auto)]

pub mod carried;
pub mod permitted;
pub mod row_terms;
pub mod set_sums;

ghost use Rattle.std.specs.Prelude.{◌≡◌, ◌+◌, ◌^◌, ◌<◌};
ghost use Rattle.sums.specs.steps.Sums.{balance_sum, zero_sums, add, Room};

use arithmetic::signed::{Amount, Parts};
use std::ops::Add;

// What resists and what overturns at an edge, in kN mm.
#[derive(Clone, Copy, Default)]
pub struct Balance {
    pub resisting: u64,
    pub overturning: u64,
}

// The sums over the rows of a set: V, H and the moment by their parts, the balance at the edges at +x and at -x, how many of its
// rows are wind and earthquake rows, how many rows it has, and the set's number.
#[derive(Clone, Copy, Default)]
pub struct Sums {
    pub v: Parts,
    pub h: Parts,
    pub m: Parts,
    pub plus: Balance,
    pub minus: Balance,
    pub winds: u64,
    pub earthquakes: u64,
    pub rows: u64,
    pub set: u64,
}

// The totals of a set as document 01 names them: N, the sum of H, M, and the balance at each edge.
#[derive(Clone, Copy)]
pub struct Totals {
    pub n: Amount,
    pub h: Amount,
    pub m: Amount,
    pub plus: Balance,
    pub minus: Balance,
}

// The sums over no rows, from which every set's sums are built up; their set is 0.
#[tactic(auto, unfolding(crate::specs::steps::Sums::zero_sums))]
pub fn no_sums() -> Sums
    ensures { result ≡ zero_sums }
{
    Sums::default()
}

// What resists and what overturns by two together, where that fits a word.
impl Add for Balance {
    type Output = Balance;

    ghost can_add = { λ a b. (a.resisting + b.resisting < 2 ^ 64) × (a.overturning + b.overturning < 2 ^ 64) };

    ghost add_gives = { λ a b sum. sum ≡ balance_sum a b };

    #[tactic(auto, unfolding(crate::specs::steps::Sums::balance_sum))]
    fn add(self, b: Balance) -> Balance {
        Balance {
            resisting: self.resisting + b.resisting,
            overturning: self.overturning + b.overturning,
        }
    }
}

// Two sums together, where each is of 64 rows at most.
impl Add for Sums {
    type Output = Sums;

    ghost can_add = { λ a b. Room 64 a × Room 64 b };

    ghost add_gives = { λ a b sum. sum ≡ add a b };

    #[tactic(auto, unfolding(crate::specs::steps::Sums::add, crate::specs::steps::Sums::parts_sum))]
    fn add(self, b: Sums) -> Sums {
        Sums {
            v: self.v + b.v,
            h: self.h + b.h,
            m: self.m + b.m,
            plus: self.plus + b.plus,
            minus: self.minus + b.minus,
            winds: self.winds + b.winds,
            earthquakes: self.earthquakes + b.earthquakes,
            rows: self.rows + b.rows,
            set: self.set + b.set,
        }
    }
}
