// Runs the records that standard input lists (02, P6). It is a comma-separated text, a record a row: member, job, kind, phase, the length of the buffer
// that is lent, and the record in hex. Each gives a line: the refusal, 0 where a row was written, and the row in hex. Where a byte that is none of the
// row's was written, `touched` stands in its place. The list has these two behind its six, as implementations written apart agree on them or as they were
// worked out by hand; they are not read here, and are what must be printed.
#![tactic(auto)]

use csv_text::cells::Cells;
use reactions::RowRefusal;

// What each byte of the buffer is before a call.
const UNTOUCHED: u8 = 0xaa;

// What a field without a number counts as.
const NO_NUMBER: u32 = 255;

// The number that a field is; or one that is no phase, and more than a buffer's length.
fn number_of(raw: &[u8]) -> u32 {
    let Some(entry) = fields::number_at(raw) else {
        return NO_NUMBER;
    };
    if entry.minus {
        return NO_NUMBER;
    }
    entry.size
}

// The number of a refusal; 0 where a row was written.
fn refusal_of(written: Result<usize, RowRefusal>) -> u64 {
    match written {
        Ok(_) => 0,
        Err(RowRefusal::NoRow) => 26,
        Err(RowRefusal::NoRecord) => 21,
        Err(RowRefusal::NotFinite) => 22,
        Err(RowRefusal::OutOfRange) => 23,
        Err(RowRefusal::TooShort) => 27,
    }
}

// Bytes in hex, of a buffer of at most 200.
fn put_hex(rt: &impl Print, bytes: &[u8]) {
    let mut digits = [0u8; 400];
    let len = hex_text::encode(bytes, &mut digits);
    files::put(rt, &digits[..len]);
}

// The bytes that were written, in hex; or that a byte behind them is another than it was.
fn put_row(rt: &impl Print, out: &[u8], len: usize) {
    let untouched = out.iter().skip(len).all(|byte| *byte == UNTOUCHED);
    match out.get(..len) {
        Some(row) if untouched => put_hex(rt, row),
        _ => files::put(rt, b"touched"),
    }
}

// What a call was told, and what it wrote to the buffer.
fn put_written(rt: &impl Print, written: Result<usize, RowRefusal>, out: &[u8]) {
    files::put_number(rt, refusal_of(written));
    files::put(rt, b",");
    put_row(rt, out, written.unwrap_or(0));
    files::put(rt, b"\r\n");
}

// A call with a lent buffer.
fn run(
    rt: &impl Print,
    member: &[u8],
    job: &[u8],
    kind: &[u8],
    phase: u32,
    sent: &[u8],
    out: &mut [u8],
) {
    let written = reactions::reaction_row(member, job, kind, phase, sent, out);
    put_written(rt, written, out);
}

// The call of a row of the list. A record of more than 512 bytes is cut there, and is none either way; a buffer has at most 200.
fn run_row(rt: &impl Print, s: &[u8], cells: Cells) {
    let member = cells.cell(s, 0);
    let job = cells.cell(s, 1);
    let kind = cells.cell(s, 2);
    let phase = number_of(cells.cell(s, 3));
    let length = number_of(cells.cell(s, 4));
    let mut sent = [0u8; 512];
    let len = hex_text::decode(cells.cell(s, 5), &mut sent);
    let mut out = [UNTOUCHED; 200];
    let room = (length as usize).min(200);
    run(rt, member, job, kind, phase, &sent[..len], &mut out[..room]);
}

// Each row of a comma-separated text.
fn run_all(rt: &impl Print, err: &impl Print, s: &[u8]) {
    if !csv_text::is_csv(s) {
        files::put(err, b"records_run: the list is not comma-separated\n");
        return;
    }
    let mut at: usize = 0;
    // nothing iterates over the rows of a text
    while at < s.len() {
        let cells = csv_text::cells::cells_at(s, at);
        run_row(rt, s, cells);
        at = cells.next;
    }
}

fn main(rt: HostRuntime) {
    let err = rt.stderr();
    let mut list = [0u8; 262144];
    let mut input = rt.reader();
    let len = files::read_full(&mut input, &mut list);
    run_all(&rt, &err, &list[..len]);
}
