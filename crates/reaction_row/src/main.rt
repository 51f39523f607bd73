// reaction_row MEMBER JOB KIND PHASE: prints the load row that a record of the frame program gives, the record being what is on standard input (02, P6).
// The row is printed as `reactions::reaction_row` writes it, CRLF included. A refusal is told on standard error with its number; so are, without one,
// arguments that are missing or too many, and an input that cannot be read to its end. Nothing is printed then.
#![tactic(auto)]

use reactions::RowRefusal;
use std::rt::Env;

// A phase that no row has.
const NO_PHASE: u32 = 255;

// The phase that an argument is; or one that no row has.
fn phase_of(text: &[u8]) -> u32 {
    match text {
        [b'0'] => 0,
        [b'1'] => 1,
        [b'2'] => 2,
        _ => NO_PHASE,
    }
}

// What is wrong with what is asked, the record or its numbers, behind the number of the refusal.
fn words_of(why: RowRefusal) -> &'static str {
    match why {
        RowRefusal::NoRow =>
            "(26): member and job are 1 to 12 of A-Z, 0-9 and hyphen, the kind is DL, EP, LL, WC, BU, TM, EX, WL or SF, and the phase is 0, 1 or 2",
        RowRefusal::NoRecord =>
            "(21): standard input is not exactly one record of 40 to 72 bytes, or a load has an unknown case",
        RowRefusal::NotFinite => "(22): a number, or the product of a load, is not finite",
        RowRefusal::OutOfRange =>
            "(23): V or H is outside -50,000 to 50,000 kN, x outside -30,000 to 30,000 mm, or y outside 0 to 60,000 mm, after rounding",
        RowRefusal::TooShort => "(27): the buffer is shorter than the row",
    }
}

// Tells a refusal.
fn tell(err: &impl Print, why: RowRefusal) {
    let _ = println!(err; "reaction_row: refused {}", words_of(why));
}

// Prints a row; where it cannot be written, that is told.
fn print_row(rt: &impl Print, err: &impl Print, row: &[u8]) {
    if rt.write_all(row).is_err() {
        files::put(err, b"reaction_row: the row could not be written\n");
    }
}

// Prints the row of a record, or tells the refusal.
fn react(
    rt: &impl Print,
    err: &impl Print,
    member: &[u8],
    job: &[u8],
    kind: &[u8],
    phase: u32,
    sent: &[u8],
) {
    // a row has at most 61 bytes
    let mut row = [0u8; 64];
    match reactions::reaction_row(member, job, kind, phase, sent, &mut row) {
        Ok(len) => print_row(rt, err, &row[..len]),
        Err(why) => tell(err, why),
    }
}

// The row of a record with what the arguments are. One that is longer than its buffer counts as empty, so that no name is cut.
fn react_as_asked(rt: &(impl Env + Print), err: &impl Print, sent: &[u8]) {
    let mut member = [0u8; 4096];
    let len = files::argument(rt, 1, &mut member);
    let member = &member[..len];
    let mut job = [0u8; 4096];
    let len = files::argument(rt, 2, &mut job);
    let job = &job[..len];
    let mut kind = [0u8; 4096];
    let len = files::argument(rt, 3, &mut kind);
    let kind = &kind[..len];
    let mut phase = [0u8; 4096];
    let len = files::argument(rt, 4, &mut phase);
    let phase = phase_of(&phase[..len]);
    react(rt, err, member, job, kind, phase, sent);
}

fn main(rt: HostRuntime) {
    let err = rt.stderr();
    if files::arg_count(&rt) != 5 {
        files::put(
            &err,
            b"reaction_row: it takes a member, a job, a kind and a phase, and reads a record from standard input\n",
        );
        return;
    }
    let mut text = [0u8; 65537];
    let mut input = rt.reader();
    let Ok(len) = files::read_open(&mut input, &mut text) else {
        files::put(
            &err,
            b"reaction_row: the record could not be read to its end\n",
        );
        return;
    };
    react_as_asked(&rt, &err, &text[..len]);
}
