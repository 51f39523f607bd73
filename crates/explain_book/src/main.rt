// explain_book [--all] [OWN [COMMON]]: reads a job book from standard input and says in plain words where it is refused, or which of its jobs
// are, and what is odd in the others; or that it is not refused. OWN and COMMON name the fill books; without them there are no own rows, and Table 2
// is the common book. With --all it tells every bad row of a book that is RFC 4180. What it says is put into words by `explain`, from proved values.
#![tactic(auto)]

use std::rt::Env;

// The book on standard input, with these fill books.
fn explain_with(rt: &(impl Input + Print), err: &impl Print, own: &[u8], common: &[u8], all: bool) {
    let mut text = [0u8; 65537];
    let mut input = rt.reader();
    let Ok(len) = files::read_open(&mut input, &mut text) else {
        files::put(
            err,
            b"explain_book: the book could not be read to its end\n",
        );
        return;
    };
    explain::explain(rt, &text[..len], own, common, all);
}

// Whether the first argument is --all.
fn wants_all(rt: &impl Env) -> bool {
    let mut text = [0u8; 4096];
    let len = files::argument(rt, 1, &mut text);
    &text[..len] == b"--all".as_slice()
}

fn main(rt: HostRuntime) {
    let err = rt.stderr();
    let all = wants_all(&rt);
    let first = if all { 2 } else { 1 };
    if first + 2 < files::arg_count(&rt) {
        files::put(
            &err,
            b"explain_book: it takes --all, and at most two files, the own and the common fill book, and reads a book from standard input\n",
        );
        return;
    }
    let mut own = [0u8; 65537];
    let Ok(owns) = files::read_argument_or(&rt, &err, b"explain_book", first, b"", &mut own) else {
        return;
    };
    let table2 = fills::table2_book::bytes();
    let mut common = [0u8; 65537];
    let Ok(commons) = files::read_argument_or(
        &rt,
        &err,
        b"explain_book",
        first + 1,
        &table2,
        &mut common,
    ) else {
        return;
    };
    explain_with(&rt, &err, &own[..owns], &common[..commons], all);
}
