// The fills of a book in words: two for member, soil and slope, so that two fills are compared by two words, and one for the value.
//
// A name has twelve bytes and a length of at most 12, soil and slope are at most 5: so the two words tell all of them, and fills have the same
// words exactly if they have the same member, soil and slope. There are places for 7,282 fills: a row takes nine bytes at least, but for the
// last one's CRLF, and a book has 65,536 at most.
ghost use Rattle.std.specs.Prelude.{◌≡◌, ◌<◌, ◌≤◌, [], ◌∷◌, ◌++◌, length};
ghost use Rattle.fills.specs.digest.Digest.{WordIs, NameKeyIs, KeyIs, FoundAt};

use fields::names::Name;
use std::marker::Model;

// A member, or a member with a soil and a slope, in two words.
#[derive(Clone, Copy, PartialEq, Eq)]
pub struct TwoWords {
    pub high: u64,
    pub low: u64,
}

// A fill in words: those of its member, soil and slope, and its value.
#[derive(Clone, Copy)]
pub struct FillWords {
    pub key: TwoWords,
    pub value: u32,
}

// The fills of a book in words, in the book's order. An array with a length, since a function that cannot fail uses no heap.
#[derive(Drop)]
pub struct Digest {
    places: [FillWords; 7282],
    len: usize,
}

impl Model for Digest {
    ghost use Rattle.std.specs.Prelude.{◌≤◌, List, take};
    ghost use Rattle.fills.specs.declared.digest.FillWords.{FillWords};

    ghost Value = { List FillWords };

    ghost view = { λ d. take d.len d.places };

    ghost invariant = { λ d. d.len ≤ 7282 };
}

impl Digest {
    // No fills.
    pub(crate) fn new() -> Self
        ensures { result ≡ [] }
    {
        let none = FillWords {
            key: TwoWords { high: 0, low: 0 },
            value: 0,
        };
        Digest {
            places: [none; 7282],
            len: 0,
        }
    }

    // Takes the fills out.
    pub(crate) fn clear(&mut self)
        ensures { self.new ≡ [] }
    {
        self.len = 0;
    }

    // Puts a fill behind the others.
    pub(crate) fn push(&mut self, fill: FillWords)
        requires { length self.old < 7282 }
        ensures { self.new ≡ self.old ++ fill ∷ [] }
    {
        self.places[self.len] = fill;
        self.len += 1;
    }

    // The fills, in words.
    pub(crate) fn words(&self) -> &[FillWords]
        ensures { result.now ≡ self.now }
    {
        &self.places[..self.len]
    }

    // The place of the first fill that has these words. Inlined into the walk, LLVM no longer unrolls this loop, and it takes twice as long.
    #[inline(never)]
    pub(crate) fn find(&self, key: TwoWords) -> Option<usize>
        ensures { FoundAt self.now key result }
    {
        self.words().iter().position(|fill| fill.key == key)
    }
}

// Six bytes in a word.
fn word(a: u8, b: u8, c: u8, d: u8, e: u8, f: u8) -> u64
    ensures { WordIs a b c d e f result }
{
    let half = (a as u64 * 256 + b as u64) * 256 + c as u64;
    ((half * 256 + d as u64) * 256 + e as u64) * 256 + f as u64
}

// A member in two words.
pub(crate) fn name_key(name: Name) -> TwoWords
    requires { name.len ≤ 12 }
    ensures { NameKeyIs name result }
{
    let b = name.bytes;
    let high = word(b[0], b[1], b[2], b[3], b[4], b[5]);
    let low = word(b[6], b[7], b[8], b[9], b[10], b[11]) * 16 + name.len as u64;
    TwoWords { high, low }
}

// A member, a soil and a slope in two words.
pub(crate) fn fill_key(name: Name, soil: u32, slope: u32) -> TwoWords
    requires { (name.len ≤ 12) × (soil ≤ 5) × (slope ≤ 5) }
    ensures { KeyIs name soil slope result }
{
    let TwoWords { high, low } = name_key(name);
    let low = low * 64 + soil as u64 * 8 + slope as u64;
    TwoWords { high, low }
}
