// The load row that a record of the frame program gives (document 02, P6): "Superstructure offices send reactions in XDR (RFC 4506) with IEEE 754
// doubles."
//
// Key, kind and phase are given beside the record. What is hard is that nothing is said of the doubles but by their exact values: the record holds
// them as they are, not a number and infinities among them, each product is rounded once, and the nearest whole number is told of what comes out.
// The row is written to a lent buffer, or one refusal is told and nothing is written.
#![tactic(auto)]

mod row;
mod xdr;

ghost use Rattle.std.specs.Prelude.{◌≡◌};
ghost use Rattle.arithmetic.specs.decides.Decides.{Decides};
ghost use Rattle.reactions.specs.Force.{kilonewtons};
ghost use Rattle.reactions.specs.Asked.{Taken};
ghost use Rattle.reactions.specs.Reacts.{Reacts, row_told};
ghost use Rattle.reactions.specs.steps.Calling.{AskedIs, EntryIs, NumbersIs};

use buffer::TooShort;
use doubles::Whole;
use fields::Entry;
use kinds::{Kind, Numbers};
use xdr::FrameLoad;

// Why a call is refused: what is asked for, the record, its numbers, or the buffer.
#[derive(Clone, Copy)]
pub enum RowRefusal {
    NoRow,
    NoRecord,
    NotFinite,
    OutOfRange,
    TooShort,
}

impl From<TooShort> for RowRefusal {
    ghost use Rattle.std.specs.Prelude.{◌≡◌};
    ghost use Rattle.reactions.specs.declared.RowRefusal as row;

    ghost from_gives = { λ _ e. e ≡ row.RowRefusal.TooShort };

    fn from(_short: TooShort) -> RowRefusal {
        RowRefusal::TooShort
    }
}

// Whether a kind is taken: the load rows that give their own forces and come without a train.
fn is_taken(kind: Kind) -> bool
    ensures { Decides result (Taken kind) }
{
    matches!(
        kind,
        Kind::DL
            | Kind::EP
            | Kind::LL
            | Kind::WC
            | Kind::BU
            | Kind::TM
            | Kind::EX
            | Kind::WL
            | Kind::SF
    )
}

// The kind that is asked for; nothing, where no load row can have this key, kind and phase.
fn asked_kind(member: &[u8], job: &[u8], kind: &[u8], phase: u32) -> Option<Kind>
    ensures { AskedIs member.now job.now kind.now phase result }
{
    if 2 < phase {
        return None;
    }
    let of = kinds::letters::kind_of(kind)?;
    let _member = fields::names::name_of(member)?;
    let _job = fields::names::name_of(job)?;
    if is_taken(of) { Some(of) } else { None }
}

// What a load is in kN, each product rounded once, from left to right.
fn kilonewtons(load: FrameLoad) -> f64
    ensures { result ≡ kilonewtons load }
{
    match load {
        FrameLoad::Force(f) => f,
        FrameLoad::Line(q, l) => q * l,
        FrameLoad::Pressure(p, a, b) => p * a * b,
    }
}

// A double to the nearest whole number, as a field holds it; nothing where that lies beyond every range.
fn entry_of(x: f64) -> Entry
    ensures { EntryIs x result }
{
    match doubles::nearest(x) {
        Some(Whole { amount, exact: _ }) => Entry {
            filled: true,
            minus: amount.minus,
            size: amount.size as u32,
        },
        None => fields::blank_entry(),
    }
}

// The numbers of the row of a kind and a phase that a record gives.
fn numbers_of(sent: &[u8], kind: Kind, phase: u32) -> Result<Numbers, RowRefusal>
    requires { Taken kind }
    ensures { NumbersIs sent.now kind phase result }
{
    let reaction = xdr::read_record(sent).ok_or(RowRefusal::NoRecord)?;
    let v = kilonewtons(reaction.vertical);
    let x = reaction.x;
    let h = kilonewtons(reaction.horizontal);
    let y = reaction.y;
    // a product is finite only if its factors are; `&` and not `&&`, so that `decides_finite` speaks of the four tests at once
    if !(doubles::is_finite(v)
        & doubles::is_finite(x)
        & doubles::is_finite(h)
        & doubles::is_finite(y))
    {
        return Err(RowRefusal::NotFinite);
    }
    let numbers = Numbers {
        n1: entry_of(v),
        n2: entry_of(x),
        n3: entry_of(h),
        n4: entry_of(y),
        n5: Entry {
            filled: true,
            minus: false,
            size: phase,
        },
        n6: fields::blank_entry(),
    };
    if !kinds::ranges::is_ranged(kind, numbers) {
        return Err(RowRefusal::OutOfRange);
    }
    Ok(numbers)
}

// The load row of a record, written to the start of a lent buffer, and its length.
pub fn reaction_row(
    member: &[u8],
    job: &[u8],
    kind: &[u8],
    phase: u32,
    sent: &[u8],
    out: &mut [u8],
) -> Result<usize, RowRefusal>
    ensures { Reacts member.now job.now kind.now phase sent.now out.old out.new (row_told result) }
{
    let Some(of) = asked_kind(member, job, kind, phase) else {
        return Err(RowRefusal::NoRow);
    };
    let numbers = numbers_of(sent, of, phase)?;
    Ok(buffer::write_block(row::row_block(member, job, kind, numbers), out)?)
}
