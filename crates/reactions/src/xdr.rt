// A record in XDR (document 02, P6; RFC 4506): a vertical load, x, a horizontal load and y, and nothing behind them.
//
// What bytes are a record stands in `specs/xdr/Record.antt`. A load's discriminant tells how many doubles it has, so that a record has one reading.
ghost use Rattle.std.specs.Prelude.{◌≤◌, length, take, ◌≡◌};
ghost use Rattle.reactions.specs.xdr.Record.{behind, Double};
ghost use Rattle.reactions.specs.xdr.steps.Reading.{BeginsWith, RecordIs};

// A load of the frame program: a force in kN, a line load in kN/m with its length in m, or a pressure in kN/m² with its two sides in m.
#[derive(Clone, Copy)]
pub enum FrameLoad {
    Force(f64),
    Line(f64, f64),
    Pressure(f64, f64, f64),
}

// What a record holds: the vertical load and its x, the horizontal load and its y, in mm.
#[derive(Clone, Copy)]
pub struct Reaction {
    pub vertical: FrameLoad,
    pub x: f64,
    pub horizontal: FrameLoad,
    pub y: f64,
}

// The number that the first bytes stand for, the highest first.
fn first_number(s: &[u8], count: usize) -> u64
    requires { (count ≤ 8) × (count ≤ length s.now) }
    ensures { result ≡ behind 0 (take count s.now) }
{
    let mut number: u64 = 0;
    for byte in &s[..count] {
        number = number * 256 + u64::from(*byte);
    }
    number
}

// The double that the first eight bytes are.
fn first_double(s: &[u8]) -> f64
    requires { 8 ≤ length s.now }
    ensures { Double (take 8 s.now) result }
{
    doubles::of_bits(first_number(s, 8))
}

// The load that bytes begin with, and how many bytes it has.
fn first_load(s: &[u8]) -> Option<(FrameLoad, usize)>
    ensures { BeginsWith s.now result }
{
    if s.len() < 12 {
        return None;
    }
    let case = first_number(s, 4);
    if 2 < case {
        return None;
    }
    let size = 12 + 8 * case as usize;
    if s.len() < size {
        return None;
    }
    let first = first_double(&s[4..]);
    if case == 0 {
        return Some((FrameLoad::Force(first), size));
    }
    let second = first_double(&s[12..]);
    if case == 1 {
        return Some((FrameLoad::Line(first, second), size));
    }
    let third = first_double(&s[20..]);
    Some((FrameLoad::Pressure(first, second, third), size))
}

// What a record holds.
pub(crate) fn read_record(s: &[u8]) -> Option<Reaction>
    ensures { RecordIs s.now result }
{
    let (vertical, at) = first_load(s)?;
    if s.len() < at + 8 {
        return None;
    }
    let x = first_double(&s[at..]);
    let behind = at + 8;
    let (horizontal, size) = first_load(&s[behind..])?;
    let last = behind + size;
    if s.len() != last + 8 {
        return None;
    }
    let y = first_double(&s[last..]);
    Some(Reaction {
        vertical,
        x,
        horizontal,
        y,
    })
}
