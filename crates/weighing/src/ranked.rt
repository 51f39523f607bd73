// The worst of a check so far: a set with the rank of its figure, and which of two such comes first by document 01's tie rule (Load sets).
//
// Of two sets with one figure the one with fewer rows is named, and of as many rows the smaller number. What is hard is that this
// order and that of the figures are one order of one number, the weight, so that the worse of two is one.
ghost use Rattle.std.specs.Prelude.{◌≡◌, ◌<◌};
ghost use Rattle.weighing.specs.steps.Ranked.{order_of_ties, WorseOf};

// The worst so far of a check: the rank of its figure, and its set; set 0 where there is none yet, which as a bit pattern
// (document 01) has no row, so that `weight_of` orders it as the last of all without an Option.
#[derive(Clone, Copy)]
pub struct RankedSet {
    pub rank: u64,
    pub set: u64,
}

// The order of the sets with one figure: the fewest rows first, then the smallest number. Set 0, none yet, comes last.
pub(crate) fn tie_order(set: u64) -> u64
    requires { set < 65536 }
    ensures { result ≡ order_of_ties set }
{
    if set == 0 {
        return 17 * 65536;
    }
    let rows = u64::from(set.count_ones());
    65536 * rows + set
}

// The worse of the worst so far and of one set more: the lower rank, and of equal ranks the set that comes first.
pub(crate) fn worse(worst: RankedSet, rank: u64, set: u64) -> RankedSet
    requires { (0 < set) × (set < 65536) × (worst.set < 65536) }
    ensures { WorseOf worst rank set result }
{
    if rank < worst.rank {
        return RankedSet { rank, set };
    }
    if rank == worst.rank && tie_order(set) < tie_order(worst.set) {
        return RankedSet { rank, set };
    }
    worst
}
