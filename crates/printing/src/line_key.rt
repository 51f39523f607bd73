// The key of a printed line (document 01, The printed answer): member and job, each with the comma behind it.
//
// It is put behind the text that a page holds. The text and its length are said of every key, those that no book holds among them.
ghost use Rattle.block.specs.Block.{Put};
ghost use Rattle.printing.specs.line_key.Text.{name_bytes, key_text};

use block::Block;
use fields::names::Name;
use rows::keys::Key;

// A name's bytes.
fn put_name(page: &mut Block, name: Name)
    ensures { Put page.old (name_bytes name) 12 page.new }
{
    let bytes = name.bytes;
    let len = name.len.min(12);
    page.put(&bytes[..len]);
}

// Member and job, each with the comma behind it.
pub(crate) fn put_key(page: &mut Block, key: Key)
    ensures { Put page.old (key_text key) 26 page.new }
{
    put_name(page, key.member);
    page.push(b',');
    put_name(page, key.job);
    page.push(b',');
}
