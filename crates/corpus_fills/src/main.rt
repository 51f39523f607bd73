// Prints the lines of stored books with their fill books (02, P4). Its arguments come in threes: the own fill book, the common one, and the
// book, whose name is printed before its lines. What it must print is put together from the lines of programs written apart from this one.
// Those whose names begin with p4 are books of all kinds, some with a fill book that is refused, those with p5 have G rows, and those with p7 try what the eighth field says; fills.book has full fill books; using-fills.book
// is the example of docs/USING.md; the others are worked out in docs/DECISIONS.md. A file that cannot be read to its end is told, and its book has no lines.
#![tactic(auto)]

ghost use Rattle.std.specs.Prelude.{◌+◌, ◌<◌, ◌^◌};

use std::rt::{Env, Files};

// Prints the lines of a book; where they cannot be written, that is told.
fn print_lines(rt: &impl Print, err: &impl Print, book: &[u8], own: &[u8], common: &[u8]) {
    let mut lines = [0u8; 131072];
    let len = debtarush::book_lines(book, own, common, &mut lines);
    if rt.write_all(&lines[..len]).is_err() {
        files::put(err, b"corpus_fills: the lines could not be written\n");
    }
}

// The book that an argument names, with these fill books.
fn print_named(
    rt: &(impl Env + Files + Print),
    err: &impl Print,
    i: usize,
    own: &[u8],
    common: &[u8],
) {
    let mut text = [0u8; 65537];
    let Ok(got) = files::read_argument(rt, err, b"corpus_fills", i, &mut text) else {
        return;
    };
    let mut name = [0u8; 4096];
    let len = files::argument(rt, i, &mut name);
    files::put(rt, &name[..len]);
    files::put(rt, b"\r\n");
    print_lines(rt, err, &text[..got], own, common);
}

// The fill books that an argument and the next one name, and the book that the one behind them does.
fn print_with(rt: &(impl Env + Files + Print), err: &impl Print, i: usize)
    requires { i + 2 < 2 ^ 64 }
{
    let mut own = [0u8; 65537];
    let mut common = [0u8; 65537];
    let Ok(owns) = files::read_argument(rt, err, b"corpus_fills", i, &mut own) else {
        return;
    };
    let Ok(commons) = files::read_argument(rt, err, b"corpus_fills", i + 1, &mut common) else {
        return;
    };
    print_named(rt, err, i + 2, &own[..owns], &common[..commons]);
}

fn main(rt: HostRuntime) {
    let err = rt.stderr();
    let count = files::arg_count(&rt);
    if count % 3 != 1 {
        files::put(
            &err,
            b"corpus_fills: its arguments come in threes, the own fill book, the common one and the book\n",
        );
        return;
    }
    for n in 0..count / 3 {
        print_with(&rt, &err, 3 * n + 1);
    }
}
