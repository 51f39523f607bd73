// Whether a combination permits a set of a job's load rows (document 01, Load sets; 02, P3; 002, 5.13).
//
// The decision for any one set, whatever its number, also one that names rows that the job has not: for whoever asks of a set, as a
// reviewer does. The search for the worst set goes through the choices among the rows and does not ask it.
ghost use Rattle.arithmetic.specs.decides.Decides.{Decides};
ghost use Rattle.sets.specs.Sets.{Permitted};
ghost use Rattle.sets.specs.Bounded.{Bounded};

use sets::{Combination, Loads};

// Whether a combination permits a set: every row may stand in it as its bit says, it has no row past the last, some row raises the
// combination, and its wind and earthquake rows may act together. Its sums count those, whatever the width.
pub fn permitted(combination: Combination, loads: Loads, set: u64) -> bool
    requires { Bounded loads }
    ensures { Decides result (Permitted combination loads set) }
{
    for (i, load) in loads.rows().iter().enumerate() {
        if !sets::phases::row_fits(combination, *load, set, (set >> i) % 2) {
            return false;
        }
    }
    if set >> loads.count != 0 || !sets::arising::arises(combination, loads) {
        return false;
    }
    let sums = crate::set_sums::sums_of(0, loads, set);
    sets::admission::admits(combination, sums.winds, sums.earthquakes, set)
}
