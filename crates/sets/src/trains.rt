// Whether a row has its train in a set (02, P3): LF and CF come with a train, and name its LL row.
ghost use Rattle.std.specs.Prelude.{◌≤◌};
ghost use Rattle.arithmetic.specs.decides.Decides.{Decides};
ghost use Rattle.sets.specs.Sets.{HasTrain};

// Whether a set has the row at this position, from 1; 0 names no row, and every set will do.
#[tactic(auto, unfolding(crate::specs::Sets::HasTrain))]
pub fn has_train(train: u32, set: u64) -> bool
    requires { train ≤ 16 }
    ensures { Decides result (HasTrain train set) }
{
    train == 0 || crate::holds(set, (train - 1) as usize)
}
