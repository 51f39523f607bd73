// A row of a fill book by what its five cells mean (02, P4: "member, soil, slope, value (1 to 40,000), note").
//
// The columns are asked from the left, so that the first that is wrong is told. What is promised of the row speaks of every row whose cells stand
// where these places say.
ghost use Rattle.fills.specs.fill_rows.steps.Reading.{NumberTo, MemberAt, MeantBy};

use crate::faults::FillFault;
use csv_text::cells::Cells;
use fields::names::Name;

// Whose rows a fill book has: the members' own, or the common ones, with the member empty.
#[derive(Clone, Copy)]
pub enum Whose {
    Own,
    Common,
}

// What a row of a fill book says: the value of a soil and a slope, for a member or, with no name, for all.
#[derive(Clone, Copy)]
pub struct Fill {
    pub member: Name,
    pub soil: u32,
    pub slope: u32,
    pub value: u32,
}

// The number from 1 to a bound that a field is.
pub(crate) fn number_to(raw: &[u8], bound: u32) -> Option<u32>
    ensures { NumberTo bound raw.now result }
{
    let Some(entry) = fields::number_at(raw) else {
        return None;
    };
    if entry.minus || entry.size == 0 || bound < entry.size {
        return None;
    }
    Some(entry.size)
}

// The member that a field is, by whose book it stands in.
pub(crate) fn member_at(raw: &[u8], whose: Whose) -> Option<Name>
    ensures { MemberAt whose raw.now result }
{
    match whose {
        Whose::Own => fields::names::name_at(raw),
        Whose::Common => match fields::empty_at(raw) {
            Some(_) => Some(fields::names::blank_name()),
            None => None,
        },
    }
}

// The fill that the cells of a row mean, which is the row n of its book; or why they mean none: their number, or the first bad column.
pub(crate) fn fill_of(s: &[u8], cells: Cells, whose: Whose, n: usize) -> Result<Fill, FillFault>
    ensures { MeantBy whose s.now cells n result }
{
    if cells.count != 5 {
        return Err(FillFault::Count(n, cells.count));
    }
    let Some(member) = member_at(cells.cell(s, 0), whose) else {
        return Err(FillFault::Column(n, 1));
    };
    let Some(soil) = number_to(cells.cell(s, 1), 5) else {
        return Err(FillFault::Column(n, 2));
    };
    let Some(slope) = number_to(cells.cell(s, 2), 5) else {
        return Err(FillFault::Column(n, 3));
    };
    let Some(value) = number_to(cells.cell(s, 3), 40000) else {
        return Err(FillFault::Column(n, 4));
    };
    // any note will do
    Ok(Fill {
        member,
        soil,
        slope,
        value,
    })
}
