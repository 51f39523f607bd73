// The fields of a job book by their content (document 01, the job book): numbers, and fields left empty.
//
// Each function takes a stretch of the lent book that starts in its middle, and its answer is exact for every stretch, whether or not it is
// a field of RFC 4180. One content is one number: a minus stands before its digits or nowhere, and never before a zero.
#![tactic(auto)]

pub mod content;
pub mod digits;
pub mod names;

ghost use Rattle.std.specs.Prelude.{◌≡◌};
ghost use Rattle.fields.specs.Numbers.{IsNumber, IsEmpty, absent};
ghost use Rattle.fields.specs.Entries.{EntryAt};

// What a number field holds: nothing, or a number by its sign and size. No field gives a minus zero.
#[derive(Clone, Copy)]
pub struct Entry {
    pub filled: bool,
    pub minus: bool,
    pub size: u32,
}

// The number that a field is: digits, with a minus before them or not, and never -0; nothing, where its form is wrong (refusal 3).
pub fn number_at(raw: &[u8]) -> Option<Entry>
    ensures { EntryAt IsNumber raw.now result }
{
    let content = content::bare(raw);
    if let [b'-', behind @ ..] = content {
        let size = digits::digits_of(behind)?;
        if size == 0 {
            return None;
        }
        return Some(Entry {
            filled: true,
            minus: true,
            size,
        });
    }
    let size = digits::digits_of(content)?;
    Some(Entry {
        filled: true,
        minus: false,
        size,
    })
}

// A field left empty: what it holds.
pub fn blank_entry() -> Entry
    ensures { result ≡ absent }
{
    Entry {
        filled: false,
        minus: false,
        size: 0,
    }
}

// What a field left empty holds; nothing, where it is not left empty (refusal 3).
pub fn empty_at(raw: &[u8]) -> Option<Entry>
    ensures { EntryAt IsEmpty raw.now result }
{
    let content = content::bare(raw);
    if content.len() == 0 {
        return Some(blank_entry());
    }
    None
}
