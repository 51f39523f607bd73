// Runs the lookups that standard input lists (02, P4). It is a comma-separated text, a lookup a row: the own book and the common one, byte by
// byte in hex, member, soil and slope. Each gives a line: the book that holds the row, where the row starts in it, and the row in hex.
// The list has these three behind its five, as implementations written apart agree on them; they are not read here, and are what must be printed.
#![tactic(auto)]

use csv_text::cells::Cells;
use fills::lookup::Place;

// The number that a field is.
fn number_of(raw: &[u8]) -> Option<u32> {
    match fields::number_at(raw) {
        Some(entry) if !entry.minus => Some(entry.size),
        _ => None,
    }
}

// The row in hex. A book that is read has at most 65,536 bytes, and so has a row.
fn put_row(rt: &impl Print, row: &[u8]) {
    let mut digits = [0u8; 131072];
    let len = hex_text::encode(row, &mut digits);
    files::put(rt, &digits[..len]);
}

// One lookup: the book that holds the row, where the row starts in it, and the row.
fn look_up(rt: &impl Print, own: &[u8], common: &[u8], member: &[u8], soil: u32, slope: u32) {
    let (book, from) = match fills::lookup::place_of(own, common, member, soil, slope) {
        Some(Place::Own(row)) => ("own", row.from),
        Some(Place::Common(row)) => ("common", row.from),
        None => ("none", 0),
    };
    let _ = print!(rt; "{book},{from},");
    put_row(rt, fills::lookup::row_of(own, common, member, soil, slope));
    files::put(rt, b"\r\n");
}

// The lookup of a row.
fn look_up_row(rt: &impl Print, s: &[u8], cells: Cells) {
    let mut own = [0u8; 65537];
    let mut common = [0u8; 65537];
    let owns = hex_text::decode(cells.cell(s, 0), &mut own);
    let commons = hex_text::decode(cells.cell(s, 1), &mut common);
    let member = cells.cell(s, 2);
    // what is no number is no soil and no slope, and neither is 0
    let soil = number_of(cells.cell(s, 3)).unwrap_or(0);
    let slope = number_of(cells.cell(s, 4)).unwrap_or(0);
    look_up(rt, &own[..owns], &common[..commons], member, soil, slope);
}

// Each row of a comma-separated text. The loop goes by places, since nothing iterates over the rows of a text.
fn look_up_all(rt: &impl Print, err: &impl Print, s: &[u8]) {
    if !csv_text::is_csv(s) {
        files::put(err, b"lookup_run: the list is not comma-separated\n");
        return;
    }
    let mut at: usize = 0;
    while at < s.len() {
        let cells = csv_text::cells::cells_at(s, at);
        look_up_row(rt, s, cells);
        at = cells.next;
    }
}

fn main(rt: HostRuntime) {
    let err = rt.stderr();
    let mut list = [0u8; 262144];
    let mut input = rt.reader();
    let len = files::read_full(&mut input, &mut list);
    look_up_all(&rt, &err, &list[..len]);
}
