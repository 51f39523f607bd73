// The choices among the rows of a combination, and the sets that they make (document 01, Load sets; 02, P3).
//
// What is hard is that every permitted set is a choice beside some trains, and that the sums of a choice are those of its set. Not every choice
// is a permitted set: which wind and earthquake rows act together is asked of each. A search in any order rests on these laws.
ghost use Rattle.std.specs.Prelude.{◌≡◌, ◌≤◌, ◌<◌};
ghost use Rattle.worst.specs.steps.Stance.{stance_toward, beside};

use crate::trains::Trains;
use sets::{Class, Combination, Load};

// A row is in no set of the combination, in every one, or choosable.
#[derive(Clone, Copy)]
pub enum Stance {
    Never,
    Always,
    Choosable,
}

// What a row is to the sets of a combination.
pub(crate) fn stance_of(combination: Combination, load: Load) -> Stance
    ensures { result ≡ stance_toward combination load }
{
    let class = load.class;
    if !sets::phases::acts(combination, load.phase) {
        return Stance::Never;
    }
    match class {
        Class::Permanent => Stance::Always,
        Class::Free => Stance::Choosable,
        Class::Wind => match combination {
            Combination::I | Combination::III => Stance::Never,
            Combination::II | Combination::IV => Stance::Choosable,
        },
        Class::Earthquake => match combination {
            Combination::I | Combination::II => Stance::Never,
            Combination::III | Combination::IV => Stance::Choosable,
        },
    }
}

// What a row of this stance is beside these trains (02, P3): one that names a train is choosable where that is present, and in no set where it
// is not; a leading row is in every set or in none, as it is present.
pub(crate) fn stance_beside(trains: Trains, row: usize, train: u32, stance: Stance) -> Stance
    requires { (row < 16) × (train ≤ 16) }
    ensures { result ≡ beside trains row train stance }
{
    match stance {
        Stance::Never => Stance::Never,
        Stance::Always => Stance::Always,
        Stance::Choosable => {
            if 0 < train {
                if sets::trains::has_train(train, trains.present) {
                    return Stance::Choosable;
                }
                return Stance::Never;
            }
            if !sets::holds(trains.leaders, row) {
                return Stance::Choosable;
            }
            if sets::holds(trains.present, row) {
                return Stance::Always;
            }
            Stance::Never
        }
    }
}
