// The table of a combination's steps (document 01, Load sets; 02, P3): what adding a choosable row does to the sums of a set, and behind it what
// taking it away does, for at most 16 rows; and the sums of the rows in every set of it.
//
// A walk goes from choice to choice by one row at a time, so what leads to the next lies ready in one lent array. A choosable row's number is
// that of the choosable rows before it, by which a choice holds it; its entries stand at twice that number and next to it.
ghost use Rattle.std.specs.Prelude.{◌≤◌};
ghost use Rattle.sets.specs.Bounded.{Bounded};
ghost use Rattle.worst.specs.steps.StepTable.{TableIs};

use crate::choices::Stance;
use crate::trains::Trains;
use sets::{Combination, Loads};
use sums::carried::Carried;

// The steps of a combination: what leads from choice to choice, the number of the last step, and the sums of the first choice, which has no
// choosable row.
#[derive(Clone, Copy)]
pub struct StepTable {
    pub steps: [Carried; 32],
    pub last: u64,
    pub first: Carried,
}

// The table of a combination beside these trains.
pub(crate) fn table_of(
    combination: Combination,
    width: u64,
    loads: Loads,
    trains: Trains,
) -> StepTable
    requires width_bound { width ≤ 30000 }
    requires bounded { Bounded loads }
    ensures { TableIs combination width loads trains result }
{
    let none = sums::no_sums();
    let mut steps = [Carried::default(); 32];
    let mut choosable: usize = 0;
    let mut fixed = none;
    for (i, load) in loads.rows().iter().enumerate() {
        let alone = crate::choices::stance_of(combination, *load);
        let sums = sums::row_terms::terms_of(width, *load, 1 << i);
        match crate::choices::stance_beside(trains, i, load.train, alone) {
            Stance::Never => {}
            Stance::Always => {
                fixed = fixed + sums;
            }
            Stance::Choosable => {
                let added = sums::carried::shift_of(sums, none);
                let taken = sums::carried::shift_of(none, sums);
                steps[2 * choosable] = added;
                steps[2 * choosable + 1] = taken;
                choosable += 1;
            }
        }
    }
    let first = sums::carried::shift_of(fixed, none);
    let choices = 1u64 << choosable;
    StepTable {
        steps,
        last: choices - 1,
        first,
    }
}
