// The loads of a job, and which sets of them a combination permits (document 01, Load sets; 02, P3; 002, 5.13).
//
// A set is a bit pattern: the first load row counts 1, the next 2, the next 4. The definition names no order of going through the sets.
#![tactic(auto)]

pub mod admission;
pub mod arising;
pub mod phases;
pub mod trains;

ghost use Rattle.std.specs.Prelude.{◌≡◌, ◌<◌, ◌≤◌, ℕ, get_or, length};
ghost use Rattle.arithmetic.specs.decides.Decides.{Decides};
ghost use Rattle.sets.specs.Sets.{bit, blank_load, row};

use arithmetic::signed::Amount;

// What a row is to a combination: DL, EP and E are permanent, WL is wind, SF is earthquake, every other row is free, LF and CF only beside their train.
#[derive(Clone, Copy, PartialEq, Eq, Default)]
pub enum Class {
    #[default]
    Permanent,
    Free,
    Wind,
    Earthquake,
}

// The combinations of loads (002, 5.13): I without wind and earthquake, II with wind, III with earthquake, IV during erection.
#[derive(Clone, Copy, PartialEq, Eq)]
pub enum Combination {
    I,
    II,
    III,
    IV,
}

// What a load row exerts: V in kN, down positive; x in mm from the base's centre; H in kN, positive toward +x; the twist is H
// times its height above the base, in kN mm. The phase is 0 service, 1 erection, 2 both. A row that comes with a train has the position of
// its LL row among the load rows, from 1, and any other 0 (02, P3), by
// which `HasTrain` and `Led` go, so it is no Option.
#[derive(Clone, Copy, Default)]
pub struct Load {
    pub class: Class,
    pub phase: u32,
    pub train: u32,
    pub v: Amount,
    pub x: Amount,
    pub h: Amount,
    pub twist: Amount,
}

// The loads of a job: the first `count` of them. The count stands beside the places since `row` and `Permitted` go by both, and a library function uses no heap.
#[derive(Clone, Copy)]
pub struct Loads {
    pub count: usize,
    pub loads: [Load; 16],
}

impl Loads {
    // The rows.
    pub fn rows(&self) -> &[Load]
        requires { self.now.count ≤ 16 }
        ensures count { length result.now ≡ self.now.count }
        ensures each { (i : ℕ) → i < self.now.count → get_or result.now i blank_load ≡ row self.now i }
    {
        &self.loads[..self.count]
    }
}

// A row that exerts nothing.
pub fn no_load() -> Load
    ensures { result ≡ blank_load }
{
    Load::default()
}

// Whether a set has a row, by the row's number from 0.
#[tactic(auto, unfolding(crate::specs::Sets::bit))]
pub fn holds(set: u64, row: usize) -> bool
    requires { row < 64 }
    ensures { Decides result (bit set row ≡ 1) }
{
    (set >> row) % 2 == 1
}
