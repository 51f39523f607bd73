// The bytes of a load row (document 02, P6: "a load row, no field quoted, note empty, CRLF at its end").
//
// The fields are put one behind the other into a block of 2,048 bytes, and nothing is cut, since names have at most 12 bytes.
ghost use Rattle.std.specs.Prelude.{◌≡◌};
ghost use Rattle.block.specs.Block.{puts, block_of};
ghost use Rattle.block.specs.Fields.{field};
ghost use Rattle.reactions.specs.row.Text.{entry_text, row_text};

use block::Block;
use fields::Entry;
use kinds::Numbers;

// A comma, and what stands in a number's field.
fn put_entry(page: &mut Block, entry: Entry)
    ensures { page.new ≡ puts page.old (field (entry_text entry)) }
{
    page.push(b',');
    if entry.filled {
        if entry.minus {
            page.push(b'-');
        }
        page.put_decimal(u64::from(entry.size));
    }
}

// The bytes of a row: member, job and kind as they are given, the six numbers, an empty note, and CRLF.
pub(crate) fn row_block(member: &[u8], job: &[u8], kind: &[u8], numbers: Numbers) -> Block
    ensures { result ≡ block_of (row_text member.now job.now kind.now numbers) }
{
    let mut page = Block::new();
    page.put(member);
    page.push(b',');
    page.put(job);
    page.push(b',');
    page.put(kind);
    put_entry(&mut page, numbers.n1);
    put_entry(&mut page, numbers.n2);
    put_entry(&mut page, numbers.n3);
    put_entry(&mut page, numbers.n4);
    put_entry(&mut page, numbers.n5);
    put_entry(&mut page, numbers.n6);
    page.put(b",\r\n");
    page
}
