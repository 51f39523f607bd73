// The trains of a combination (02, P3): the rows that act and that others name, and the ways in which they may be there or not.
//
// LF and CF come with a train, so a set that has one has the LL row that it names. A search that first settles which of the named rows are in,
// and then goes through the rows that these leave to choose, meets no other sets.
ghost use Rattle.std.specs.Prelude.{◌≡◌, ◌^◌, ◌<◌};
ghost use Rattle.sets.specs.Bounded.{Bounded};
ghost use Rattle.worst.specs.steps.Stance.{choosable, pick, leading};
ghost use Rattle.worst.specs.steps.Trains.{with_row, LeadersIs};

use sets::{Combination, Loads};

// The rows that act and that others name, and those of them that are in the sets gone through, as sets of rows.
#[derive(Clone, Copy)]
pub struct Trains {
    pub leaders: u64,
    pub present: u64,
}

// A set with a row, whether it had it or not.
fn with_row(set: u64, row: usize) -> u64
    requires row_bound { row < 16 }
    requires set_bound { set < 65536 }
    ensures { result ≡ with_row set row }
{
    if sets::holds(set, row) {
        return set;
    }
    set + (1u64 << row)
}

// The rows that act in a combination and that others name.
pub(crate) fn leaders_of(combination: Combination, loads: Loads) -> u64
    requires { Bounded loads }
    ensures { LeadersIs combination loads loads.count result }
{
    let mut leaders: u64 = 0;
    for load in loads.rows() {
        if 0 < load.train {
            let row = (load.train - 1) as usize;
            let lead = loads.loads[row];
            if sets::phases::acts(combination, lead.phase) {
                leaders = with_row(leaders, row);
            }
        }
    }
    leaders
}

// In how many ways the leading rows may be there or not.
pub(crate) fn ways_of(leaders: u64) -> u64
    ensures { result ≡ 2 ^ choosable (leading leaders) 16 }
{
    let mut ways: u64 = 1;
    for i in 0..16 {
        if sets::holds(leaders, i) {
            ways = 2 * ways;
        }
    }
    ways
}

// The leading rows that are there in one of the ways.
pub(crate) fn present_in(leaders: u64, way: u64) -> u64
    ensures { result ≡ pick (leading leaders) 16 way }
{
    let mut present: u64 = 0;
    let mut rest = way;
    for i in 0..16 {
        if sets::holds(leaders, i) {
            if rest % 2 == 1 {
                present = present + (1u64 << i);
            }
            rest = rest / 2;
        }
    }
    present
}
