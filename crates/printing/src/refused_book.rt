// The one line of a refused book (document 01, The printed answer: "A refused book prints `,,BOOK,number,row,,`"). 02, P7 adds an eighth
// field, which BOOK has empty: `,,BOOK,number,row,,,`.
//
// It is put into a page of 2,048 bytes part by part, and nothing is cut, whatever the row.
ghost use Rattle.std.specs.Prelude.{◌≡◌, ◌≤◌, length};
ghost use Rattle.block.specs.Block.{block_of};
ghost use Rattle.printing.specs.refused_book.Text.{book_text};

use block::Block;

// The bytes of a refused book's one line. The text is promised of every number, and so a refusal is given by its number.
pub fn book_line(number: u8, row: usize) -> Block
    ensures value { result ≡ block_of (book_text number row) }
    ensures whole { length (book_text number row) ≤ 2048 }
{
    let mut page = Block::new();
    page.put(b",,BOOK");
    page.put_number(u64::from(number));
    page.put_number(row as u64);
    page.put(b",,,\r\n");
    page
}
