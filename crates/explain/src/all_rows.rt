// Every bad row of a book, each judged as if the bad rows before it were not there, and the rows behind a bad B row by their form alone.
//
// That is done as it is said: a copy of the book is asked where its refusal lies, the row is taken out of the copy, and the copy is asked again.
// Beside the copy stands which row of the book each of its rows is.
use crate::book_words::WrongBook;
use crate::words::RowOf;
use book::faults::BookFault;
use csv_text::places;
use kinds::Kind;
use std::io;

// What is left of a book, and which row of the book each of its rows is.
#[derive(Drop)]
struct Left<'a> {
    text: &'a mut [u8],
    numbers: &'a mut [usize],
}

impl<'a> Left<'a> {
    // The row n.
    fn row(&self, n: usize) -> RowOf<'_> {
        RowOf {
            text: &*self.text,
            row: n,
        }
    }

    // Whether there is a row n.
    fn has(&self, n: usize) -> bool {
        places::start_of(self.text, n) < self.text.len()
    }

    // Whether the row n is a B row, by its kind.
    fn is_base(&self, n: usize) -> bool {
        matches!(self.row(n).kind(), Some(Kind::B))
    }

    // The number in the book of the row n.
    fn number(&self, n: usize) -> usize {
        match n.checked_sub(1).and_then(|place| self.numbers.get(place)) {
            Some(number) => *number,
            None => n,
        }
    }

    // A fault by the numbers that its rows have in the book.
    fn renumbered(&self, fault: BookFault) -> BookFault {
        match fault {
            BookFault::Row(n, why) => BookFault::Row(self.number(n), why),
            BookFault::Misplaced(n, why) => BookFault::Misplaced(self.number(n), why),
            BookFault::TooManyJobs(n) => BookFault::TooManyJobs(self.number(n)),
            BookFault::UsedKey(n, earlier) => {
                BookFault::UsedKey(self.number(n), self.number(earlier))
            }
            BookFault::TooLong | BookFault::Text(_) => fault,
        }
    }

    // What is left without the row n.
    fn without(self, n: usize) -> Left<'a> {
        let Left { text, numbers } = self;
        if n <= numbers.len() {
            numbers.copy_within(n.., n.saturating_sub(1));
        }
        let start = places::start_of(text, n);
        let rest = &mut text[start..];
        let len = places::start_of(rest, 2);
        rest.copy_within(len.., 0);
        let left = text.len() - len;
        Left {
            text: &mut text[..left],
            numbers,
        }
    }
}

// The row of a fault that has one.
pub(crate) fn row_of(fault: BookFault) -> Option<usize> {
    match fault {
        BookFault::Row(n, _) => Some(n),
        BookFault::Misplaced(n, _) => Some(n),
        BookFault::TooManyJobs(n) => Some(n),
        BookFault::UsedKey(n, _) => Some(n),
        BookFault::TooLong | BookFault::Text(_) => None,
    }
}

// Takes the rows from n to the next B row out of what is left, and tells each that has no form.
fn take_lost<'a>(
    rt: &impl Print,
    book: &[u8],
    mut left: Left<'a>,
    n: usize,
) -> io::Result<Left<'a>> {
    for _ in 0..left.text.len() {
        if !left.has(n) || left.is_base(n) {
            break;
        }
        if let Some(why) = book::faults::form_fault(left.text, n) {
            let fault = BookFault::Row(left.number(n), why);
            print!(rt; "{}", WrongBook { book, fault })?;
        }
        left = left.without(n);
    }
    Ok(left)
}

// Every bad row of a book: each is told and taken out of what is left, with the rows behind it where it is a B row.
fn tell_left(rt: &impl Print, book: &[u8], mut left: Left) -> io::Result<()> {
    for _ in 0..=book.len() {
        let Some(fault) = book::faults::book_fault(left.text) else {
            break;
        };
        let Some(n) = row_of(fault) else {
            break;
        };
        print!(rt;
            "{}",
            WrongBook {
                book,
                fault: left.renumbered(fault)
            }
        )?;
        if !left.has(n) {
            break;
        }
        let is_base = left.is_base(n);
        left = left.without(n);
        if is_base {
            left = take_lost(rt, book, left, n)?;
        }
        if left.text.is_empty() {
            break;
        }
    }
    Ok(())
}

// Every bad row of a book of at most 65,536 bytes.
pub(crate) fn tell(rt: &impl Print, book: &[u8]) -> io::Result<()> {
    println!(rt;
        "Only the first of these is the refusal. The others are a help: each row is judged as if the bad rows before it were not there, and the rows behind a bad B row by their form alone."
    )?;
    let mut text = [0u8; 65536];
    for (byte, written) in text.iter_mut().zip(book) {
        *byte = *written;
    }
    let mut numbers = [0usize; 65536];
    for (i, number) in numbers.iter_mut().enumerate() {
        *number = i + 1;
    }
    let len = book.len().min(65536);
    tell_left(
        rt,
        book,
        Left {
            text: &mut text[..len],
            numbers: &mut numbers,
        },
    )
}
