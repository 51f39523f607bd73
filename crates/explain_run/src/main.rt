// Explains each stored book that its arguments name, after a line with these arguments. They come four by four: "first" or "all", for the refusal alone
// or every bad row; the book; the own fill book, or "-" for none; the common fill book, or "-" for Table 2. A file that cannot be read to its end is
// told, and nothing is said of it.
#![tactic(auto)]

ghost use Rattle.std.specs.Prelude.{◌≤◌};

use std::rt::{Env, Files};

// How many arguments are looked at.
const MOST: usize = 65536;

// Prints an argument.
fn print_word(rt: &(impl Env + Print), i: usize, end: &[u8]) {
    let mut word = [0u8; 4096];
    let len = files::argument(rt, i, &mut word);
    files::put(rt, &word[..len]);
    files::put(rt, end);
}

// Whether an argument begins with this byte.
fn begins_with(rt: &impl Env, i: usize, byte: u8) -> bool {
    let mut word = [0u8; 4096];
    files::argument(rt, i, &mut word);
    word[0] == byte
}

// The fill book that an argument names, or this other one, where the argument is "-".
fn fills_named<'a>(
    rt: &(impl Env + Files),
    err: &impl Print,
    i: usize,
    other: &'a [u8],
    text: &'a mut [u8; 65537],
) -> Option<&'a [u8]> {
    if begins_with(rt, i, b'-') {
        return Some(other);
    }
    let len = files::read_argument(rt, err, b"explain_run", i, text).ok()?;
    Some(&text[..len])
}

// The four arguments from i on.
fn explain_named(rt: &(impl Env + Files + Print), err: &impl Print, i: usize)
    requires { i ≤ 65536 }
{
    print_word(rt, i, b" ");
    print_word(rt, i + 1, b" ");
    print_word(rt, i + 2, b" ");
    print_word(rt, i + 3, b"\n");
    let mut book = [0u8; 65537];
    let Ok(len) = files::read_argument(rt, err, b"explain_run", i + 1, &mut book) else {
        return;
    };
    let mut own = [0u8; 65537];
    let Some(own) = fills_named(rt, err, i + 2, b"", &mut own) else {
        return;
    };
    let table2 = fills::table2_book::bytes();
    let mut common = [0u8; 65537];
    let Some(common) = fills_named(rt, err, i + 3, &table2, &mut common) else {
        return;
    };
    explain::explain(rt, &book[..len], own, common, begins_with(rt, i, b'a'));
}

fn main(rt: HostRuntime) {
    let err = rt.stderr();
    let count = files::arg_count(&rt);
    for i in (1..count.min(MOST)).step_by(4) {
        explain_named(&rt, &err, i);
    }
}
