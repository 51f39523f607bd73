// Where the refusal of a row for its form lies (document 01, refusals of a book, 3; "where a refusal lies"): the number of its fields where
// that is not ten, and else its first column from the left that has not its form.
//
// A number is judged by its kind, so the kind is asked before the numbers; the columns are asked from the left, and the first that is wrong
// is told. The promise speaks of every reading of the text, and not of the cells that the code looks at.
ghost use Rattle.std.specs.Prelude.{◌≤◌, length, drop};
ghost use Rattle.csv_text.specs.rfc4180.Rfc4180.{Readable};
ghost use Rattle.rows.specs.faults.Place.{FaultAt};
ghost use Rattle.rows.specs.faults.steps.Columns.{FormAsked, NumbersFault};

use csv_text::cells::Cells;
use kinds::{Column, Kind};

// Why a row has no form: the number of its fields, or its first wrong column, member being 1.
#[derive(Clone, Copy)]
pub enum RowFault {
    Count(usize),
    Column(usize),
}

// Whether a field of a row, the first being 0, has the form of a column.
fn has_form(s: &[u8], cells: Cells, k: usize, column: Column) -> bool
    ensures { FormAsked s.now cells k column result }
{
    crate::entry_at(column, cells.cell(s, k)).is_some()
}

// The first of n1 to n6 that has not its form by the kind; n1 is the fourth of the ten fields.
fn numbers_fault(s: &[u8], cells: Cells, kind: Kind) -> Option<RowFault>
    ensures { NumbersFault s.now cells kind result }
{
    let c = kinds::columns_of(kind);
    let columns = [c.n1, c.n2, c.n3, c.n4, c.n5, c.n6];
    for (i, column) in columns.iter().enumerate() {
        if !has_form(s, cells, 3 + i, *column) {
            return Some(RowFault::Column(4 + i));
        }
    }
    None
}

// Why the row that starts at a place has no form; nothing, where it has one.
pub fn fault_at(s: &[u8], start: usize) -> Option<RowFault>
    requires start_in_bounds { start ≤ length s.now }
    requires readable { Readable (drop start s.now) }
    ensures { FaultAt s.now start result }
{
    let cells = csv_text::cells::cells_at(s, start);
    if cells.count != 10 {
        return Some(RowFault::Count(cells.count));
    }
    let Some(_member) = fields::names::name_at(cells.cell(s, 0)) else {
        return Some(RowFault::Column(1));
    };
    let Some(_job) = fields::names::name_at(cells.cell(s, 1)) else {
        return Some(RowFault::Column(2));
    };
    let Some(kind) = kinds::letters::kind_at(cells.cell(s, 2)) else {
        return Some(RowFault::Column(3));
    };
    numbers_fault(s, cells, kind)
}
