// Whether a row's numbers are in their ranges (document 01, refusal 11), which the table of kinds holds.
//
// A number that a column leaves empty has no range, and one that is not filled is in none.
ghost use Rattle.arithmetic.specs.decides.Decides.{Decides};
ghost use Rattle.kinds.specs.ranges.Range.{InRange, Ranged};

use crate::{Column, Kind, Numbers};
use fields::Entry;

// Whether an entry is in the range of its column.
pub fn is_in_range(column: Column, entry: Entry) -> bool
    ensures { Decides result (InRange column entry) }
{
    match column {
        Column::Empty => true,
        Column::Filled(low, high) => entry.filled
            & !entry.minus
            & (low <= entry.size)
            & (entry.size <= high),
        Column::Signed(below, above) => {
            let limit = if entry.minus { below } else { above };
            entry.filled & (entry.size <= limit)
        }
    }
}

// Whether every number of a row of a kind is in its range.
pub fn is_ranged(kind: Kind, numbers: Numbers) -> bool
    ensures { Decides result (Ranged kind numbers) }
{
    let c = crate::columns_of(kind);
    let c1 = c.n1;
    let c2 = c.n2;
    let c3 = c.n3;
    let c4 = c.n4;
    let c5 = c.n5;
    let c6 = c.n6;
    let n1 = is_in_range(c1, numbers.n1);
    let n2 = is_in_range(c2, numbers.n2);
    let n3 = is_in_range(c3, numbers.n3);
    let n4 = is_in_range(c4, numbers.n4);
    let n5 = is_in_range(c5, numbers.n5);
    let n6 = is_in_range(c6, numbers.n6);
    n1 & n2 & n3 & n4 & n5 & n6
}
