// A row of a job book by what its ten cells mean (document 01, the job book; refusal 3).
//
// The text is known to be RFC 4180, and the row has one reading. Each promise here speaks of every reading of the text, and not of the
// cells that the code looks at.
#![tactic(auto)]

pub mod faults;
pub mod keys;
pub mod refusals;

ghost use Rattle.std.specs.Prelude.{◌≤◌, length, drop};
ghost use Rattle.csv_text.specs.rfc4180.Rfc4180.{Readable};
ghost use Rattle.fields.specs.Entries.{EntryAt};
ghost use Rattle.kinds.specs.Form.{Means};
ghost use Rattle.rows.specs.Answer.{SeenAt};
ghost use Rattle.rows.specs.steps.Numbers.{NumbersAre, RowOf};

use csv_text::cells::Cells;
use fields::Entry;
use keys::{Key, Keyed};
use kinds::{Column, Kind, Numbers, Row};

// A row, or nothing where it has no form, and where the next row starts, or the text's end.
#[derive(Clone, Copy)]
pub struct RowRead {
    pub row: Option<Keyed>,
    pub next: usize,
}

// What a field holds in a column; nothing, where it has not the column's form.
fn entry_at(column: Column, raw: &[u8]) -> Option<Entry>
    ensures { EntryAt (Means column) raw.now result }
{
    match column {
        Column::Empty => fields::empty_at(raw),
        Column::Filled(_, _) => fields::number_at(raw),
        Column::Signed(_, _) => fields::number_at(raw),
    }
}

// The six numbers of a row of a kind; nothing, where a field has not its form.
fn numbers_of(s: &[u8], cells: Cells, kind: Kind) -> Option<Numbers>
    ensures { NumbersAre s.now cells kind result }
{
    let columns = kinds::columns_of(kind);
    let n1 = entry_at(columns.n1, cells.cell(s, 3))?;
    let n2 = entry_at(columns.n2, cells.cell(s, 4))?;
    let n3 = entry_at(columns.n3, cells.cell(s, 5))?;
    let n4 = entry_at(columns.n4, cells.cell(s, 6))?;
    let n5 = entry_at(columns.n5, cells.cell(s, 7))?;
    let n6 = entry_at(columns.n6, cells.cell(s, 8))?;
    Some(Numbers {
        n1,
        n2,
        n3,
        n4,
        n5,
        n6,
    })
}

// The row that cells mean; nothing, where they have no form.
fn row_of(s: &[u8], cells: Cells) -> Option<Keyed>
    ensures { RowOf s.now cells result }
{
    if cells.count != 10 {
        return None;
    }
    let kind = kinds::letters::kind_at(cells.cell(s, 2))?;
    let numbers = numbers_of(s, cells, kind)?;
    let member = fields::names::name_at(cells.cell(s, 0))?;
    let job = fields::names::name_at(cells.cell(s, 1))?;
    Some(Keyed {
        key: Key { member, job },
        row: Row { kind, numbers },
    })
}

// The row that starts at a place.
pub fn read_row(s: &[u8], start: usize) -> RowRead
    requires start_in_bounds { start ≤ length s.now }
    requires readable { Readable (drop start s.now) }
    ensures { SeenAt s.now start result }
{
    let cells = csv_text::cells::cells_at(s, start);
    RowRead {
        row: row_of(s, cells),
        next: cells.next,
    }
}
