// The values of a printed line that no check has (document 01, The printed answer): that of VERDICT, and those of SC and CL.
//
// Each function puts one field behind the text that a page holds, as the definition of that field's text has it, and says how many
// bytes it has at most. The text of every field behind the key is defined here. Both are said of every value, those that no
// job has among them.
ghost use Rattle.lines.specs.Lines.{signed_value, verdict_value};
ghost use Rattle.block.specs.Block.{Put};
ghost use Rattle.block.specs.Fields.{field};
ghost use Rattle.printing.specs.line_fields.Text.{value_text};

use arithmetic::signed::Amount;
use block::Block;
use lines::Verdict;

// The value of SC and of CL.
pub(crate) fn put_signed(page: &mut Block, amount: Amount)
    ensures { Put page.old (field (value_text (signed_value amount))) 22 page.new }
{
    page.push(b',');
    if amount.minus {
        page.push(b'-');
    }
    page.put_decimal(amount.size);
}

// The value of VERDICT.
pub(crate) fn put_verdict_value(page: &mut Block, verdict: Verdict)
    ensures { Put page.old (field (value_text (verdict_value verdict))) 4 page.new }
{
    match verdict {
        Verdict::Accepted => page.put(b",A"),
        Verdict::NotAccepted => page.put(b",N"),
        Verdict::Refused(number) => page.put_number(u64::from(number)),
    }
}
