// fill_row MEMBER SOIL SLOPE [OWN [COMMON]]: prints the row that counts for a member, soil and slope, its note included, behind the name of
// the book that it lies in, own or common; or none (02, P4: "so the note can be shown"). OWN and COMMON name the fill books; without them there are
// no own rows, and Table 2 is the common book. Which row that is, is the promise of `fills::lookup`. A refused fill book, and a file that cannot
// be read to its end, are told.
#![tactic(auto)]

use fills::faults::fill_fault;
use fills::fill_rows::Whose;
use fills::lookup::Place;
use std::rt::Env;

// Prints the row that counts, behind the book that it lies in.
fn print_row(
    rt: &impl Print,
    err: &impl Print,
    own: &[u8],
    common: &[u8],
    member: &[u8],
    soil: u32,
    slope: u32,
) {
    if fill_fault(own, Whose::Own).is_some() || fill_fault(common, Whose::Common).is_some() {
        files::put(err, b"fill_row: a fill book is refused (8)\n");
        return;
    }
    let book = match fills::lookup::place_of(own, common, member, soil, slope) {
        Some(Place::Own(_)) => "own: ",
        Some(Place::Common(_)) => "common: ",
        None => "none",
    };
    files::put(rt, book.as_bytes());
    // the note may be any bytes, so the row is no text to be formatted
    files::put(rt, fills::lookup::row_of(own, common, member, soil, slope));
    files::put(rt, b"\r\n");
}

// The soil or slope that an argument is.
fn number_of(rt: &impl Env, i: usize) -> Option<u32> {
    let mut text = [0u8; 4096];
    let len = files::argument(rt, i, &mut text);
    match fields::number_at(&text[..len]) {
        Some(entry) if !entry.minus && (1..=5).contains(&entry.size) => Some(entry.size),
        _ => None,
    }
}

// The row of what the first three arguments name, in these books.
fn look_up(rt: &(impl Env + Print), err: &impl Print, own: &[u8], common: &[u8]) {
    let (Some(soil), Some(slope)) = (number_of(rt, 2), number_of(rt, 3)) else {
        files::put(
            err,
            b"fill_row: soil and slope are whole numbers from 1 to 5\n",
        );
        return;
    };
    let mut member = [0u8; 4096];
    let len = files::argument(rt, 1, &mut member);
    print_row(rt, err, own, common, &member[..len], soil, slope);
}

fn main(rt: HostRuntime) {
    let err = rt.stderr();
    let count = files::arg_count(&rt);
    if !(4..=6).contains(&count) {
        files::put(
            &err,
            b"fill_row: it takes a member, a soil and a slope, and then, if there are any, the files of the own and the common fill book\n",
        );
        return;
    }
    let mut own = [0u8; 65537];
    let Ok(owns) = files::read_argument_or(&rt, &err, b"fill_row", 4, b"", &mut own) else {
        return;
    };
    let table2 = fills::table2_book::bytes();
    let mut common = [0u8; 65537];
    let Ok(commons) = files::read_argument_or(&rt, &err, b"fill_row", 5, &table2, &mut common)
    else {
        return;
    };
    look_up(&rt, &err, &own[..owns], &common[..commons]);
}
