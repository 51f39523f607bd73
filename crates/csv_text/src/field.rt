// RFC 4180 text, a field (document 01, the job book): where the field at a place ends, and what follows it.
//
// Where a quoted field closes stands in `quoted`. The grammar gives a text one reading at most, so the field at a place, with what may
// follow it, is one.
ghost use Rattle.std.specs.Prelude.{◌≤◌, length};
ghost use Rattle.csv_text.specs.steps.FieldAt.{PlainTo, EndIs, FieldAt};

use crate::quoted;

// What follows the field at a place: a comma or a row's end, with the index at which the field ends; or the text's end, which is
// that index itself.
#[derive(Clone, Copy)]
pub enum Ended {
    Comma(usize),
    Row(usize),
    End,
}

// The end of the longest plain stretch that starts at a place.
fn plain_end(s: &[u8], at: usize) -> usize
    requires { at ≤ length s.now }
    ensures { PlainTo s.now at result }
{
    let mut i = at;
    while i < s.len() && quoted::is_text(s[i]) {
        i += 1;
    }
    i
}

// The only end that a field at a place can have, if something may follow it; nothing, where none stands there.
fn end_of(s: &[u8], at: usize) -> Option<usize>
    requires { at ≤ length s.now }
    ensures { EndIs s.now at result }
{
    if quoted::byte_is(s, at, 0x22) {
        let closing = quoted::closing(s, at + 1)?;
        return Some(closing + 1);
    }
    Some(plain_end(s, at))
}

// The field that starts at a place: where it ends, and what follows it; nothing, where no field stands there that may be followed so.
pub(crate) fn field_end(s: &[u8], at: usize) -> Option<Ended>
    requires { at ≤ length s.now }
    ensures { FieldAt s.now at result }
{
    let end = end_of(s, at)?;
    if end == s.len() {
        return Some(Ended::End);
    }
    if quoted::byte_is(s, end, 0x2C) {
        return Some(Ended::Comma(end));
    }
    if quoted::byte_is(s, end, 0x0D) & quoted::byte_is(s, end + 1, 0x0A) {
        return Some(Ended::Row(end));
    }
    None
}
