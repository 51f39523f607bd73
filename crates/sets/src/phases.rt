// Which phases a combination is over, and whether a row may stand in a set of it (document 01, Load sets; 02, P3; 002, 5.13).
//
// I, II and III are over phases 0 and 2, IV over 1 and 2. A permanent row that acts may not be left out, and a row that does not act, or
// whose train is not there, may not be in.
ghost use Rattle.std.specs.Prelude.{◌≤◌, ◌<◌};
ghost use Rattle.arithmetic.specs.decides.Decides.{Decides};
ghost use Rattle.sets.specs.Sets.{Acts};
ghost use Rattle.sets.specs.steps.Deciding.{RowFits};

use crate::{Class, Combination, Load};

// Whether a row of a phase acts in a combination.
#[tactic(auto, unfolding(crate::specs::Sets::Acts, crate::specs::Sets::own_phase))]
pub fn acts(combination: Combination, phase: u32) -> bool
    ensures { Decides result (Acts combination phase) }
{
    let own: u32 = match combination {
        Combination::I | Combination::II | Combination::III => 0,
        Combination::IV => 1,
    };
    phase == own || phase == 2
}

// Whether a row may stand in a set as its bit says.
pub fn row_fits(combination: Combination, load: Load, set: u64, held: u64) -> bool
    requires held_bound { held < 2 }
    requires train_bound { load.train ≤ 16 }
    ensures { Decides result (RowFits combination load set held) }
{
    if held == 1 && !crate::trains::has_train(load.train, set) {
        return false;
    }
    let acting = acts(combination, load.phase);
    if load.class == Class::Permanent {
        return (held == 1) == acting;
    }
    held == 0 || acting
}
