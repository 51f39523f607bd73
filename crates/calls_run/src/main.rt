// Runs calls for one job's lines and for a row's note, and shows what the printing program cannot: places that are and are not
// there, buffers that fit exactly, are too short or have room to spare, and both faults at once (document 01, Refusals of a
// book); and each of these with a refused fill book besides (02, P4: "after 6 and before 10 and 7, and nothing is written"). Each call shows
// what was asked, what came, and in brackets the whole buffer after the call, or the note. Names in brackets tell the books of the calls that
// follow; where none is named, there are no own rows, and the common ones are Table 2's. The lines that it must print are those of a program
// written apart from this one.
//
// A buffer is lent full of dots, so that a byte which is written shows, and one which is not.
#![tactic(auto)]

ghost use Rattle.std.specs.Prelude.{◌≤◌};
ghost use Rattle.files.specs.Counts.{IsPrefixLen};

use debtarush::CallRefusal;
use std::fs::File;
use std::rt::Files;

// Bytes in brackets, on lines of their own.
fn show_bytes(rt: &impl Print, bytes: &[u8]) {
    files::put(rt, b"\n[");
    files::put(rt, bytes);
    files::put(rt, b"]\n");
}

// The number of a refusal, and its row, where it has one.
fn refusal_of(why: CallRefusal) -> (u8, usize) {
    match why {
        CallRefusal::BookRefused { why, row } => (rows::refusals::number_of(why), row),
        CallRefusal::FillsRefused => (8, 0),
        CallRefusal::NoPlace => (10, 0),
        CallRefusal::TooShort => (7, 0),
    }
}

// A call for the lines of the job at a place, with these fill books and so many dots lent.
fn call_with(rt: &impl Print, book: &[u8], own: &[u8], common: &[u8], place: usize, lent: usize)
    requires { lent ≤ 160 }
{
    let mut dots = [b'.'; 160];
    let out = &mut dots[..lent];
    let _ = print!(rt; "place {place} buffer {lent}: ");
    let _ = match debtarush::job_lines(book, own, common, place, out) {
        Ok(n) => print!(rt; "written {n}"),
        Err(why) => {
            let (number, row) = refusal_of(why);
            print!(rt; "refused {number} row {row}")
        }
    };
    show_bytes(rt, out);
}

// A call without own rows, and with Table 2 for the common ones.
fn call(rt: &impl Print, book: &[u8], place: usize, lent: usize)
    requires { lent ≤ 160 }
{
    let table2 = fills::table2_book::bytes();
    call_with(rt, book, b"", &table2, place, lent);
}

// A call for the note of a row.
fn note(rt: &impl Print, book: &[u8], row: usize) {
    let _ = print!(rt; "note of row {row}");
    show_bytes(rt, book::note_of(book, row));
}

fn three_jobs(rt: &impl Print, book: &[u8]) {
    // The first job has lines of 136 bytes: a buffer that fits exactly, one byte short, none, and one with room to spare.
    call(rt, book, 1, 136);
    call(rt, book, 1, 135);
    call(rt, book, 1, 0);
    call(rt, book, 1, 148);
    // The second job is refused: its one line has 24 bytes, and the jobs before and after it go on.
    call(rt, book, 2, 24);
    call(rt, book, 2, 23);
    call(rt, book, 2, 0);
    call(rt, book, 2, 30);
    // The last place, one past it and 0; and then with a buffer too short besides.
    call(rt, book, 3, 135);
    call(rt, book, 4, 160);
    call(rt, book, 0, 160);
    call(rt, book, 4, 0);
    call(rt, book, 0, 23);
    // Notes as they stand in the book, and none where there is no such row.
    for row in [1, 2, 4, 8, 9, 0] {
        note(rt, book, row);
    }
}

// A refused book: with room, without, and with a place that is not there besides. It has no notes.
fn refused_book(rt: &impl Print, book: &[u8]) {
    call(rt, book, 1, 40);
    call(rt, book, 1, 0);
    call(rt, book, 0, 0);
    call(rt, book, 2, 40);
    note(rt, book, 1);
}

// A refused fill book: with room, without, with a place that is not there, and with both besides. The refusal of the book itself comes before.
fn refused_fills(rt: &impl Print, earth: &[u8], unfinished: &[u8], own: &[u8], common: &[u8]) {
    show_bytes(rt, b"earth.book");
    call_with(rt, earth, own, common, 1, 160);
    call_with(rt, earth, own, common, 1, 0);
    call_with(rt, earth, own, common, 2, 40);
    call_with(rt, earth, own, common, 0, 0);
    show_bytes(rt, b"unfinished.book");
    call_with(rt, unfinished, own, common, 1, 40);
    call_with(rt, unfinished, own, common, 0, 0);
}

// Reads a book of data/, and shows its name.
fn read(rt: &(impl Files + Print), name: &str, text: &mut [u8; 4096]) -> usize
    ensures { IsPrefixLen result text.new }
{
    show_bytes(rt, name.as_bytes());
    match File::open(rt, name) {
        Ok(mut file) => files::read_full(&mut file, text),
        Err(_) => 0,
    }
}

// A job with an E row by the common value, by the own one, and with no common rows; with none in either book it is refused.
fn good_fills(rt: &(impl Files + Print), earth: &[u8]) {
    let mut own = [0u8; 4096];
    let table2 = fills::table2_book::bytes();
    call(rt, earth, 1, 138);
    let len = read(rt, "tested.own", &mut own);
    call_with(rt, earth, &own[..len], &table2, 1, 138);
    show_bytes(rt, b"tested.own, no common rows");
    call_with(rt, earth, &own[..len], b"", 1, 148);
    show_bytes(rt, b"no own rows, no common rows");
    call_with(rt, earth, b"", b"", 1, 30);
}

fn refused_own(rt: &(impl Files + Print), earth: &[u8], unfinished: &[u8]) {
    let mut own = [0u8; 4096];
    let table2 = fills::table2_book::bytes();
    let len = read(rt, "twice.own", &mut own);
    refused_fills(rt, earth, unfinished, &own[..len], &table2);
}

fn refused_common(rt: &(impl Files + Print), earth: &[u8], unfinished: &[u8]) {
    let mut common = [0u8; 4096];
    let len = read(rt, "member.common", &mut common);
    refused_fills(rt, earth, unfinished, b"", &common[..len]);
}

fn run(rt: &(impl Files + Print)) {
    let mut text = [0u8; 4096];
    let len = read(rt, "three.book", &mut text);
    three_jobs(rt, &text[..len]);
    let len = read(rt, "unfinished.book", &mut text);
    refused_book(rt, &text[..len]);
    let mut earth = [0u8; 4096];
    let earths = read(rt, "earth.book", &mut earth);
    good_fills(rt, &earth[..earths]);
    refused_own(rt, &earth[..earths], &text[..len]);
    refused_common(rt, &earth[..earths], &text[..len]);
}

fn main(rt: HostRuntime) {
    if files::arg_count(&rt) > 1 {
        files::put(&rt.stderr(), b"calls_run: it takes no argument\n");
        return;
    }
    run(&rt);
}
