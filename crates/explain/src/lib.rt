// A refusal in plain words: the row, the line of the text, the column, what stands there and what would be right; and what is odd in jobs that are not
// refused.
//
// Where a refusal lies, and the figures that were compared, are values that other rooms prove; here they become words, printed to what is lent. Which
// words these are no contract says: they are tried on stored books.
#![tactic(auto)]

mod all_rows;
mod book_words;
mod columns;
mod fill_words;
mod job_words;
mod text_words;
mod untiring;
mod warning_words;
mod words;

use book_words::WrongBook;
use fill_words::WrongFills;
use fills::fill_rows::Whose;
use job_faults::JobFault;
use job_words::JobOf;
use jobs::Job;
use std::io;
use untiring::Untiring;
use words::{Grouped, RowOf};

// What is held of fills for a job: the values of soils by slopes.
type Held = [[u32; 5]; 5];

// How many of the first n jobs are refused.
fn refused_jobs(jobs: &[Job; 64], n: usize, values: &[Held; 64]) -> usize {
    jobs.iter()
        .zip(values)
        .take(n)
        .filter(|(job, held)| !matches!(job_faults::job_fault(**held, **job), JobFault::Sound))
        .count()
}

// The one line of a book that is not refused.
fn tell_unrefused(rt: &impl Print, n: usize, refused: usize) -> io::Result<()> {
    let noun = if n == 1 { "job" } else { "jobs" };
    print!(rt; "the book is not refused: {} {noun}, ", Grouped(n as u64))?;
    match refused {
        0 => println!(rt; "none refused"),
        _ => println!(rt; "{} refused", Grouped(refused as u64)),
    }
}

// A job: where its refusal lies, or what is odd in it.
fn tell_job(rt: &impl Print, told: JobOf, held: Held) -> io::Result<()> {
    match job_faults::job_fault(held, *told.job) {
        JobFault::Sound => warning_words::tell(rt, told, answer::answer_of(held, *told.job)),
        fault => job_words::tell(rt, told, fault),
    }
}

// The first n jobs of a book, with what is held of fills for each.
fn tell_jobs(
    rt: &impl Print,
    text: &[u8],
    jobs: &[Job; 64],
    n: usize,
    values: &[Held; 64],
) -> io::Result<()> {
    tell_unrefused(rt, n, refused_jobs(jobs, n, values))?;
    let mut base = RowOf { text, row: 1 };
    for (job, held) in jobs.iter().zip(values).take(n) {
        tell_job(rt, JobOf { base, job }, *held)?;
        base = base.behind(job_faults::row_count(*job));
    }
    Ok(())
}

// Where the refusal of a fill book lies; and whether there is one.
fn tell_fills(rt: &impl Print, text: &[u8], whose: Whose) -> io::Result<bool> {
    match fills::faults::fill_fault(text, whose) {
        None => Ok(false),
        Some(fault) => {
            print!(rt; "{}", WrongFills { text, whose, fault })?;
            Ok(true)
        }
    }
}

// A book that is not refused: the fill books, own before common, then its jobs.
fn tell_sound(rt: &impl Print, text: &[u8], own: &[u8], common: &[u8]) -> io::Result<()> {
    if tell_fills(rt, own, Whose::Own)? || tell_fills(rt, common, Whose::Common)? {
        return Ok(());
    }
    let Ok(read) = book::read_book(text) else {
        return Ok(());
    };
    let n = read.count;
    let members = read.jobs.map(|job| job.key.member);
    let mut values = [[[0; 5]; 5]; 64];
    fills::values_for(own, common, members, n, &mut values);
    tell_jobs(rt, text, &read.jobs, n, &values)
}

fn tell(rt: &impl Print, text: &[u8], own: &[u8], common: &[u8], all: bool) -> io::Result<()> {
    match book::faults::book_fault(text) {
        None => tell_sound(rt, text, own, common),
        Some(fault) => {
            if all && all_rows::row_of(fault).is_some() {
                return all_rows::tell(rt, text);
            }
            print!(rt; "{}", WrongBook { book: text, fault })
        }
    }
}

// A book, with the members' own fill book and the common one: where its refusal lies, or those of its jobs; with `all` every bad row of a book that
// is RFC 4180. What cannot be written is left out, and what comes behind it is tried all the same.
pub fn explain(rt: &impl Print, book: &[u8], own: &[u8], common: &[u8], all: bool) {
    let _ = tell(&Untiring(rt), book, own, common, all);
}
