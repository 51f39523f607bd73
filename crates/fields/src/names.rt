// The names of a job book, its members and jobs (document 01, the job book: "1 to 12 of A-Z, 0-9, hyphen").
//
// The answer for a content is exact for any bytes, and that for a stretch whether or not it is a field of RFC 4180. A name is a value of its own: its bytes with zeros behind
// them, so that one content gives one name, and two contents two.
ghost use Rattle.std.specs.Prelude.{◌≡◌};
ghost use Rattle.arithmetic.specs.decides.Decides.{Decides};
ghost use Rattle.fields.specs.names.Names.{no_name, Letter};
ghost use Rattle.fields.specs.names.NameAt.{ContentNamed, NameAt};

// A member or a job: its bytes, with zeros behind them, since a name is a value that can be copied.
#[derive(Clone, Copy, PartialEq, Eq)]
pub struct Name {
    pub len: usize,
    pub bytes: [u8; 12],
}

// No name: what stands where there is none.
pub fn blank_name() -> Name
    ensures { result ≡ no_name }
{
    Name {
        len: 0,
        bytes: [0u8; 12],
    }
}

// Whether a byte may stand in a name: a hyphen, 0-9, A-Z.
fn is_letter(b: u8) -> bool
    ensures { Decides result (Letter b) }
{
    matches!(b, b'-' | b'0'..=b'9' | b'A'..=b'Z')
}

// The name that a content is; nothing, where it is none.
pub fn name_of(content: &[u8]) -> Option<Name>
    ensures { ContentNamed content.now result }
{
    let n = content.len();
    let fits = (1 <= n) & (n <= 12);
    if !fits {
        return None;
    }
    let mut bytes = [0u8; 12];
    for (i, b) in content.iter().enumerate() {
        if !is_letter(*b) {
            return None;
        }
        bytes[i] = *b;
    }
    Some(Name { len: n, bytes })
}

// The name that a field is; nothing, where it is none (refusal 3).
pub fn name_at(raw: &[u8]) -> Option<Name>
    ensures { NameAt raw.now result }
{
    name_of(crate::content::bare(raw))
}
