// RFC 4180 text, a quoted field (document 01, the job book): where it closes, and the bytes that may stand in it.
//
// What stands between quotes may hold commas, line breaks and doubled quotes, and ends at the first quote that stands alone. What
// is hard is to say that no other end is one, and that where none is found there is none.
ghost use Rattle.std.specs.Prelude.{◌≤◌, length, drop};
ghost use Rattle.csv_text.specs.rfc4180.Rfc4180.{Textdata};
ghost use Rattle.arithmetic.specs.decides.Decides.{Decides};
ghost use Rattle.csv_text.specs.steps.Closing.{FirstByte, ClosedAt};

// Whether a byte is TEXTDATA.
pub(crate) fn is_text(b: u8) -> bool
    ensures { Decides result (Textdata b) }
{
    (0x20 <= b) & (b <= 0x7E) & (b != 0x22) & (b != 0x2C)
}

// Whether the byte b stands at i.
pub(crate) fn byte_is(s: &[u8], i: usize, b: u8) -> bool
    ensures { Decides result (FirstByte b (drop i s.now)) }
{
    if i < s.len() {
        return s[i] == b;
    }
    false
}

// The closing quote of what stands between quotes from a place on.
pub(crate) fn closing(s: &[u8], at: usize) -> Option<usize>
    requires { at ≤ length s.now }
    ensures { ClosedAt s.now at result }
{
    let mut i = at;
    while i < s.len() {
        let b = s[i];
        if b == 0x22 {
            if byte_is(s, i + 1, 0x22) {
                i += 2;
            } else {
                return Some(i);
            }
        } else if (b == 0x2C) | (b == 0x0D) | (b == 0x0A) | is_text(b) {
            i += 1;
        } else {
            return None;
        }
    }
    None
}
