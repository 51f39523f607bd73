// Prints the lines of each stored book that its arguments name, after a line with the book's name (document 01, The printed
// answer), without own fills and with Table 2 for the common ones. What it must print is put together from the lines of programs written apart from this one. The books named
// using-NN are the examples of docs/USING.md; load-sets.book has 01's figures of OP and PR, and cases of the other checks and of the
// load sets that the old program got wrong or never tried; those whose names begin with p1 or current have W rows,
// current-ends.book at the ends of their ranges and past them, and with each refusal of a job that comes before 17; 99 of those whose names
// begin with p3 have LF or CF rows, and all whose names begin with train: train-ends.book with n6 at its ends and past them, naming rows
// that are not LL, and beside each refusal of a job that comes before 18, the others as docs/DECISIONS.md works them out; those whose names
// begin with p5 or surcharge have G rows: surcharge-ends.book at the ends of their ranges and past them, on both sides of 19, and beside each
// refusal of load rows that comes before 19; those whose names begin with p7 or exact, and using-exact.book, try what the eighth field says: exact-named-set.book has sets
// of one printed figure, of which one is exact, exact-checks.book each check with an exact and with a rounded figure, exact-river.book the same of SC and
// CL; docs/DECISIONS.md works them out. A file that cannot be read to its end is told, and has no lines.
#![tactic(auto)]

use std::rt::{Env, Files};

// Prints the lines of a book; where they cannot be written, that is told.
fn print_lines(rt: &impl Print, err: &impl Print, book: &[u8]) {
    let mut lines = [0u8; 131072];
    let table2 = fills::table2_book::bytes();
    let len = debtarush::book_lines(book, b"", &table2, &mut lines);
    if rt.write_all(&lines[0..len]).is_err() {
        files::put(err, b"corpus: the lines could not be written\n");
    }
}

// The book that an argument names.
fn print_named(rt: &(impl Env + Files + Print), err: &impl Print, i: usize) {
    let mut name = [0u8; 4096];
    let mut text = [0u8; 65537];
    let Ok(got) = files::read_argument(rt, err, b"corpus", i, &mut text) else {
        return;
    };
    let len = files::argument(rt, i, &mut name);
    files::put(rt, &name[..len]);
    files::put(rt, b"\r\n");
    print_lines(rt, err, &text[..got]);
}

fn main(rt: HostRuntime) {
    let err = rt.stderr();
    for i in 1..files::arg_count(&rt) {
        print_named(&rt, &err, i);
    }
}
