// Why a row is out of place (document 01, Refusals of a book, 4; "where a refusal lies"): the first of nine rules that holds of it, behind
// the rows that its job has.
//
// The promise is exact for every value, and not only for those that a book gives. Rules 1 to 3 ask whether there is a job, and whose it is;
// rules 4 to 9 ask what the job has, where the row is the job's.
ghost use Rattle.std.specs.Prelude.{◌≡◌, true};
ghost use Rattle.kinds.specs.declared.Role.TheVariants.{Base};
ghost use Rattle.jobs.specs.declared.stages.Stage.TheVariants.{Unbegun};
ghost use Rattle.jobs.specs.misplaced.Placing.{Holds, PlacingSays, PlacingIs};

use crate::stages::Stage;
use crate::{Job, stages};
use kinds::Role;
use rows::keys::Keyed;

// The rules of 4 in their order: no B row before; no load row in the job that ends; another key than the job's; a second S; an S behind a
// load row; a C without an S; a second C; a C behind a load row; a 17th load row.
#[derive(Clone, Copy)]
pub enum Misplaced {
    NoBase,
    NoLoad,
    OtherKey,
    SecondScour,
    LateScour,
    NoScour,
    SecondClearance,
    LateClearance,
    SurplusLoad,
}

// The first of rules 4 to 9 that holds of a row with the key of a job that has begun; nothing, where the row is in its place.
fn later_rule(role: Role, stage: Stage, count: usize) -> Option<Misplaced>
    requires { (role ≡ Base → ⊥) × (stage ≡ Unbegun → ⊥) }
    ensures { PlacingSays (Holds role stage count (Unit {0})) result }
{
    match role {
        Role::Scour => {
            if stages::has_scour(stage) {
                return Some(Misplaced::SecondScour);
            }
            if 0 < count {
                return Some(Misplaced::LateScour);
            }
            None
        }
        Role::Clearance => {
            if !stages::has_scour(stage) {
                return Some(Misplaced::NoScour);
            }
            if stages::has_clearance(stage) {
                return Some(Misplaced::SecondClearance);
            }
            if 0 < count {
                return Some(Misplaced::LateClearance);
            }
            None
        }
        Role::Base | Role::Load => {
            if 16 <= count {
                return Some(Misplaced::SurplusLoad);
            }
            None
        }
    }
}

// The first rule that holds of a row of this role; `same` says that it has the job's key.
fn first_rule(role: Role, stage: Stage, count: usize, same: bool) -> Option<Misplaced>
    ensures { PlacingSays (Holds role stage count (same ≡ true)) result }
{
    match role {
        Role::Base => match stage {
            Stage::Unbegun => None,
            Stage::Dry | Stage::Scoured | Stage::Crossed => {
                if count == 0 {
                    return Some(Misplaced::NoLoad);
                }
                None
            }
        },
        Role::Scour | Role::Clearance | Role::Load => match stage {
            Stage::Unbegun => Some(Misplaced::NoBase),
            Stage::Dry | Stage::Scoured | Stage::Crossed => {
                if same {
                    return later_rule(role, stage, count);
                }
                Some(Misplaced::OtherKey)
            }
        },
    }
}

// The first rule that holds of a row behind the rows of a job.
pub fn rule_of(job: Job, row: Keyed) -> Option<Misplaced>
    ensures { PlacingIs job row result }
{
    let role = kinds::role_of(row.row.kind);
    let same = rows::keys::same_key(job.key, row.key);
    first_rule(role, job.stage, job.count, same)
}
