// Which numbers of wind and earthquake rows a combination permits in a set (document 01, Load sets; 002, 5.13).
//
// The definition speaks of rows of a class that are or are not there, and the program of how many it counts.
ghost use Rattle.arithmetic.specs.decides.Decides.{Decides};
ghost use Rattle.sets.specs.steps.Deciding.{Admits};

use crate::Combination;

// Whether so many wind and earthquake rows may act together in a combination, in a set that has a row.
#[tactic(auto, unfolding(crate::specs::steps::Deciding::Together))]
pub fn admits(combination: Combination, winds: u64, earthquakes: u64, set: u64) -> bool
    ensures { Decides result (Admits combination winds earthquakes set) }
{
    if set == 0 {
        return false;
    }
    match combination {
        Combination::I => winds == 0 && earthquakes == 0,
        Combination::II => winds > 0 && earthquakes == 0,
        Combination::III => winds == 0 && earthquakes > 0,
        Combination::IV => winds == 0 || earthquakes == 0,
    }
}
