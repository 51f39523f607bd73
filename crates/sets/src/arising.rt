// Whether a combination arises from a job's rows: II takes a WL row, III an SF row, IV a row of phase 1 (document 01, Load sets;
// 002, 5.13).
//
// A combination that no row raises has no set, so a search need not go through its choices.
ghost use Rattle.std.specs.Prelude.{◌≤◌};
ghost use Rattle.arithmetic.specs.decides.Decides.{Decides};
ghost use Rattle.sets.specs.steps.Deciding.{RaisedBy, Arises};

use crate::{Class, Combination, Loads};

// Whether a combination is raised by a row of this class and phase.
#[tactic(auto, unfolding(crate::specs::steps::Deciding::RaisedBy))]
fn raised_by(combination: Combination, class: Class, phase: u32) -> bool
    ensures { Decides result (RaisedBy combination class phase) }
{
    match combination {
        Combination::I => true,
        Combination::II => class == Class::Wind,
        Combination::III => class == Class::Earthquake,
        Combination::IV => phase == 1,
    }
}

// Whether some row raises a combination.
#[tactic(auto, unfolding(crate::specs::steps::Deciding::Arises))]
pub fn arises(combination: Combination, loads: Loads) -> bool
    requires { loads.count ≤ 16 }
    ensures { Decides result (Arises combination loads) }
{
    loads
        .rows()
        .iter()
        .any(|load| raised_by(combination, load.class, load.phase))
}
