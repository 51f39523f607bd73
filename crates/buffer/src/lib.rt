// A block's text in a lent buffer (document 01, Refusals of a book, refusal 7).
//
// Exactly the block's bytes are written from the start, and the rest of the buffer is untouched; a buffer that is too short is refused, and
// nothing is written. The promise gives one answer and one state of the buffer for every block, also for one that claims more than its
// 2,048 bytes.
#![tactic(auto)]

ghost use Rattle.block.specs.Block.{text_held};
ghost use Rattle.buffer.specs.Copying.{Wrote, copy_told};

use block::Block;

// Refusal 7: a lent buffer is shorter than the text.
#[derive(Clone, Copy)]
pub struct TooShort;

// A block's text at the start of a lent buffer, if it has room, and its length; else nothing.
pub fn write_block(block: Block, out: &mut [u8]) -> Result<usize, TooShort>
    ensures { Wrote (text_held block) out.old out.new (copy_told result) }
{
    let len = block.len.min(2048);
    if out.len() < len {
        return Err(TooShort);
    }
    let page = block.bytes;
    out[..len].copy_from_slice(&page[..len]);
    Ok(len)
}
