// How far a job has come (document 01, the job book; refusal 4): which river rows it has, and whether a row is in its place, from its role
// and from whether it has the job's key.
//
// The promises are exact for every stage and count, and not only for those that a book gives.
ghost use Rattle.std.specs.Prelude.{◌≡◌, true};
ghost use Rattle.arithmetic.specs.decides.Decides.{Decides};
ghost use Rattle.jobs.specs.stages.Fits.{Fits};
ghost use Rattle.jobs.specs.stages.Rows.{HasScour, HasClearance};

use kinds::Role;

// How far a job has come: not begun, its B row, its S row, its C row.
#[derive(Clone, Copy, PartialEq, Eq)]
pub enum Stage {
    Unbegun,
    Dry,
    Scoured,
    Crossed,
}

// Whether a row is in place. A B row: behind no job, and behind a job with a load row. An S row, or a C row: right behind the row
// before it. A load row: in a job that has begun, up to 16 of them.
pub(crate) fn fits(role: Role, stage: Stage, count: usize, same: bool) -> bool
    ensures { Decides result (Fits role stage count (same ≡ true)) }
{
    match role {
        Role::Base => (stage == Stage::Unbegun) | (0 < count),
        Role::Scour => (stage == Stage::Dry) & (count == 0) & same,
        Role::Clearance => (stage == Stage::Scoured) & (count == 0) & same,
        Role::Load => (stage != Stage::Unbegun) & (count < 16) & same,
    }
}

// Whether a job has an S row, by how far it has come.
pub fn has_scour(stage: Stage) -> bool
    ensures { Decides result (HasScour stage) }
{
    match stage {
        Stage::Unbegun | Stage::Dry => false,
        Stage::Scoured | Stage::Crossed => true,
    }
}

// Whether a job has a C row.
pub fn has_clearance(stage: Stage) -> bool
    ensures { Decides result (HasClearance stage) }
{
    match stage {
        Stage::Unbegun | Stage::Dry | Stage::Scoured => false,
        Stage::Crossed => true,
    }
}
