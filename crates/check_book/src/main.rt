// Reads a job book from standard input and prints its jobs' lines in book order, or the one line of a refused book (document 01, The printed
// answer). Its arguments name the members' own fill book and the common one (02, P4); without them there are no own rows, and Table 2 is the
// common book. Which bytes are printed is the promise of `debtarush::book_lines`, and they are written as they come. A file that cannot be read
// to its end is told, and no job is printed.
#![tactic(auto)]

// Prints the lines of a book; where they cannot be written, that is told.
fn print_lines(rt: &impl Print, err: &impl Print, book: &[u8], own: &[u8], common: &[u8]) {
    let mut lines = [0u8; 131072];
    let len = debtarush::book_lines(book, own, common, &mut lines);
    if rt.write_all(&lines[0..len]).is_err() {
        files::put(err, b"check_book: the lines could not be written\n");
    }
}

// The book on standard input, with these fill books.
fn check(rt: &(impl Input + Print), err: &impl Print, own: &[u8], common: &[u8]) {
    let mut text = [0u8; 65537];
    let mut input = rt.reader();
    let Ok(len) = files::read_open(&mut input, &mut text) else {
        files::put(err, b"check_book: the book could not be read to its end\n");
        return;
    };
    print_lines(rt, err, &text[..len], own, common);
}

fn main(rt: HostRuntime) {
    let err = rt.stderr();
    if 3 < files::arg_count(&rt) {
        files::put(
            &err,
            b"check_book: it takes at most two arguments, the files of the own and the common fill book, and reads a book from standard input\n",
        );
        return;
    }
    let mut own = [0u8; 65537];
    let Ok(owns) = files::read_argument_or(&rt, &err, b"check_book", 1, b"", &mut own) else {
        return;
    };
    let table2 = fills::table2_book::bytes();
    let mut common = [0u8; 65537];
    let Ok(commons) = files::read_argument_or(&rt, &err, b"check_book", 2, &table2, &mut common)
    else {
        return;
    };
    check(&rt, &err, &own[..owns], &common[..commons]);
}
