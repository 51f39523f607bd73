// Counts the jobs of each book that its arguments name. One line a book: its name, the number of its jobs and the
// length of its first note, or the number and the row of its refusal. A file that cannot be read to its end is told, and
// has no line.
#![tactic(auto)]

use std::io;
use std::rt::{Env, Files};

fn show(rt: &impl Print, text: &[u8]) -> io::Result<()> {
    match book::count_jobs(text) {
        Ok(n) => println!(rt; " jobs {n} note {}", book::note_of(text, 1).len()),
        Err(refused) => println!(rt;
            " refused {} row {}",
            rows::refusals::number_of(refused.why),
            refused.row
        ),
    }
}

// The book that an argument names. What cannot be written is left out.
fn show_book(rt: &(impl Env + Files + Print), err: &impl Print, i: usize) {
    let mut name = [0u8; 4096];
    let mut text = [0u8; 65537];
    let Ok(got) = files::read_argument(rt, err, b"count_books", i, &mut text) else {
        return;
    };
    let len = files::argument(rt, i, &mut name);
    files::put(rt, &name[..len]);
    let _ = show(rt, &text[..got]);
}

fn main(rt: HostRuntime) {
    let err = rt.stderr();
    for i in 1..files::arg_count(&rt) {
        show_book(&rt, &err, i);
    }
}
