// The reading of a job book (document 01, "The job book" and "Refusals of a book"): its jobs by value and their number, or
// the refusal, 1 to 6, with its row; and the note of a row, as the stretch of the lent book that it is.
//
// A book is refused by its length before its form, and by its form before its rows, which `walk` goes through. A note is the tenth cell of
// a row of the text, and the forms of the book's rows say the same of it.
#![tactic(auto)]

pub mod counted;
pub mod faults;
mod step;
mod walk;

ghost use Rattle.book.specs.Reading.{BookIs, CountIs};
ghost use Rattle.book.specs.Notes.{NoteIs};

use counted::{Book, Refused};
use rows::refusals::Refusal;

// The bytes that a book may have (refusal 1).
pub(crate) const LONGEST: usize = 65536;

// The jobs of a book, by value; or why it is refused.
pub fn read_book(book: &[u8]) -> Result<Book, Refused>
    ensures { BookIs book.now result }
{
    if LONGEST < book.len() {
        return Err(Refused {
            why: Refusal::TooLong,
            row: 0,
        });
    }
    if !csv_text::is_csv(book) {
        return Err(Refused {
            why: Refusal::NotCsv,
            row: 0,
        });
    }
    let stop = walk::walk_rows(book);
    if let Err(why) = stop.ending {
        return Err(Refused { why, row: stop.row });
    }
    // a load row is missing, one past the last row
    if stop.job.count == 0 {
        return Err(Refused {
            why: Refusal::Misplaced,
            row: stop.row + 1,
        });
    }
    let jobs = stop.jobs;
    Ok(Book {
        count: stop.count,
        jobs,
    })
}

// The number of jobs of a book; or why it is refused.
pub fn count_jobs(book: &[u8]) -> Result<usize, Refused>
    ensures { CountIs book.now result }
{
    Ok(read_book(book)?.count)
}

// The note of a row of a book, counted from 1, as the stretch of the lent book that it is; nothing where the book is
// refused or has no such row.
pub fn note_of(book: &[u8], row: usize) -> &[u8]
    ensures { NoteIs book.now row result.now }
{
    match count_jobs(book) {
        Ok(_) => csv_text::notes::note_at(book, row),
        Err(_) => &book[0..0],
    }
}
