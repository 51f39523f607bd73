// How the kinds of the table are written (document 01, the job book; 02, P1 and P5), the kind that letters are, and the kind that a field is
// (refusal 3).
//
// A field is a kind exactly if the stretch between its quotes is, since no letter is a quote.
ghost use Rattle.kinds.specs.letters.Form.{KindIs, KindAt};

use crate::Kind;

// The kind that a content is; nothing, where it is none.
pub fn kind_of(content: &[u8]) -> Option<Kind>
    ensures { KindIs content.now result }
{
    let kind = match content {
        b"B" => Kind::B,
        b"S" => Kind::S,
        b"C" => Kind::C,
        b"E" => Kind::E,
        b"W" => Kind::W,
        b"G" => Kind::G,
        b"DL" => Kind::DL,
        b"EP" => Kind::EP,
        b"LL" => Kind::LL,
        b"LF" => Kind::LF,
        b"CF" => Kind::CF,
        b"WC" => Kind::WC,
        b"BU" => Kind::BU,
        b"TM" => Kind::TM,
        b"EX" => Kind::EX,
        b"WL" => Kind::WL,
        b"SF" => Kind::SF,
        _ => return None,
    };
    Some(kind)
}

// The kind that a field is; nothing, where it is none.
pub fn kind_at(raw: &[u8]) -> Option<Kind>
    ensures { KindAt raw.now result }
{
    kind_of(fields::content::bare(raw))
}
