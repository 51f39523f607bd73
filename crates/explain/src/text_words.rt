// Where a text stops being RFC 4180 (document 01, refusal 2; of a fill book 02, P4, refusal 8), in words.
use crate::words::{Field, Grouped};
use csv_text::places;
use csv_text::strays::{Spot, TextFault};
use std::fmt;

// A byte of a text, by its line, as an editor counts it, and its place there, the first being 1.
#[derive(Clone, Copy)]
struct ByteOf<'a> {
    text: &'a [u8],
    at: usize,
}

impl<'a> fmt::Display for ByteOf<'a> {
    fn fmt<W: fmt::Write>(&self, f: &mut fmt::Formatter<W>) -> fmt::Result {
        let before = &self.text[..self.at.min(self.text.len())];
        let line = places::line_of(self.text, self.at);
        let place = before
            .iter()
            .rev()
            .take_while(|byte| **byte != b'\n')
            .count()
            + 1;
        write!(
            f,
            "line {} of the text, byte {} of it",
            Grouped(line as u64),
            Grouped(place as u64),
        )
    }
}

// The first byte with which no text begins, by what stands before it: a CR alone outside quotes is told where it stands.
#[derive(Clone, Copy)]
struct Stray {
    byte: u8,
    behind: Spot,
}

impl fmt::Display for Stray {
    fn fmt<W: fmt::Write>(&self, f: &mut fmt::Formatter<W>) -> fmt::Result {
        let byte = self.byte;
        match (self.behind, byte) {
            (Spot::Inside, _) => write!(
                f,
                "byte {byte}\n  may not stand between quotes: only the bytes 32 to 126, CR and LF may."
            ),
            (_, b'\n') => write!(
                f,
                "an LF (byte 10) with no CR (byte 13) before it\n  stands outside quotes: a row ends with both, CR LF."
            ),
            (Spot::Closed, _) => write!(
                f,
                "{}\n  stands behind the quote that closes its field: only a comma, CR LF or the end may. A quote inside a field is written twice.",
                Field(&[byte])
            ),
            (_, b'"') => write!(
                f,
                "a quote\n  stands in a field that does not begin with one: then the whole field is put between quotes, and each quote in it is written twice."
            ),
            _ => write!(
                f,
                "byte {byte}\n  may stand in no field: only the bytes 32 to 126 may, and CR and LF between quotes."
            ),
        }
    }
}

// A CR alone, outside quotes.
#[derive(Clone, Copy)]
struct LoneReturn<'a>(ByteOf<'a>);

impl<'a> fmt::Display for LoneReturn<'a> {
    fn fmt<W: fmt::Write>(&self, f: &mut fmt::Formatter<W>) -> fmt::Result {
        write!(
            f,
            "{}: a CR (byte 13) with no LF (byte 10) behind it\n  stands outside quotes: a row ends with both, CR LF.",
            self.0
        )
    }
}

// Where a text stops being RFC 4180.
#[derive(Clone, Copy)]
pub(crate) struct WrongText<'a> {
    pub(crate) text: &'a [u8],
    pub(crate) fault: TextFault,
}

impl<'a> fmt::Display for WrongText<'a> {
    fn fmt<W: fmt::Write>(&self, f: &mut fmt::Formatter<W>) -> fmt::Result {
        let text = self.text;
        match self.fault {
            TextFault::Stray(0, Spot::Return) => Ok(()),
            TextFault::Stray(at, Spot::Return) => {
                write!(f, "{}", LoneReturn(ByteOf { text, at: at - 1 }))
            }
            TextFault::Stray(at, behind) => match text.get(at) {
                Some(byte) => write!(
                    f,
                    "{}: {}",
                    ByteOf { text, at },
                    Stray {
                        byte: *byte,
                        behind
                    }
                ),
                None => Ok(()),
            },
            TextFault::Unclosed(at) => write!(
                f,
                "{}: a quote\n  opens a field that no quote closes before the text ends.",
                ByteOf { text, at }
            ),
            TextFault::Return(at) => write!(f, "{}", LoneReturn(ByteOf { text, at })),
        }
    }
}
