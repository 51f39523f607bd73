// The quotes around a field (document 01, the job book: "quoted or plain, a field means its content").
//
// The function takes a stretch of the lent book that starts in its middle, and its answer is exact for every stretch,
// whether or not it is a field of RFC 4180. What is hard is what the laws in `proofs/content/` say: a name, a kind, a number or
// an empty field has no quote in its content, so the stretch between the quotes is the content, and nothing is ever
// unescaped.
ghost use Rattle.fields.specs.content.Content.{Bare};

// A stretch without the quotes around it.
pub fn bare(raw: &[u8]) -> &[u8]
    ensures { Bare raw.now result.now }
{
    let n = raw.len();
    if 2 <= n {
        let e = n - 1;
        if (raw[0] == 0x22) & (raw[e] == 0x22) {
            return &raw[1..e];
        }
    }
    raw
}
