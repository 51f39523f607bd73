// The bytes of a job's lines; the call for the lines of one job of a book, named by its place; and the text of a whole book (document 01,
// "Refusals of a book", "The printed answer", "What every public promise says"; 02, P4).
//
// Both calls take the book and the two fill books as they are lent and keep nothing: the same bytes give the same answer. The call for one
// job is told a length; or a refusal of the book, 1 to 6, with its row; or 8, 10 or 7, all with row 0, in this order, and a refused call writes
// nothing. A job's lines fit their block, since their set numbers are those of at most 16 load rows, and so the lines of 64 jobs fit 64 blocks. The
// jobs come by value in 64 places, of which the book's jobs fill the first: a place past their number is none, whatever stands there.
#![tactic(auto)]

ghost use Rattle.std.specs.Prelude.{◌≡◌, ◌+◌, ◌≤◌, length};
ghost use Rattle.block.specs.Block.{text_held};
ghost use Rattle.earth.specs.coefficients.Lent.{fill_of};
ghost use Rattle.debtarush.specs.steps.LinesIn.{LinesIn};
ghost use Rattle.debtarush.specs.steps.Behind.{Behind};
ghost use Rattle.debtarush.specs.steps.Tabled.{FillsGiven};
ghost use Rattle.debtarush.specs.CallTold.{call_told};
ghost use Rattle.debtarush.specs.Called.{Called};
ghost use Rattle.debtarush.specs.BookText.{BookPrinted};

use block::Block;
use book::counted::Refused;
use buffer::TooShort;
use jobs::Job;
use rows::refusals::Refusal;

// Why a call is refused: the refusal of the book with its row, of the fill books, of the place, or of the buffer.
#[derive(Clone, Copy)]
pub enum CallRefusal {
    BookRefused { why: Refusal, row: usize },
    FillsRefused,
    NoPlace,
    TooShort,
}

impl From<TooShort> for CallRefusal {
    ghost use Rattle.std.specs.Prelude.{◌≡◌};
    ghost use Rattle.debtarush.specs.declared.CallRefusal as call;

    ghost from_gives = { λ _ e. e ≡ call.CallRefusal.TooShort };

    fn from(_short: TooShort) -> CallRefusal {
        CallRefusal::TooShort
    }
}

// The bytes of a job's lines: its answer, with what is held of fills for its member, printed.
fn lines_of(held: [[u32; 5]; 5], job: Job) -> Block
    ensures { LinesIn (fill_of held) job result }
{
    printing::answer_text(job.key, answer::answer_of(held, job))
}

// A block's text behind the first so many bytes of a buffer, which has room for a whole block there; and where it ends.
fn append(out: &mut [u8], at: usize, block: Block) -> usize
    requires { at + 2048 ≤ length out.old }
    ensures { Behind at (text_held block) out.old out.new result }
{
    match buffer::write_block(block, &mut out[at..]) {
        Ok(len) => at + len,
        Err(_) => at,
    }
}

// What the two fill books hold for the member of each of the first n jobs, at the job's place; and whether both are accepted, as `fills::values_for` tells it.
fn gather(
    own: &[u8],
    common: &[u8],
    jobs: [Job; 64],
    n: usize,
    values: &mut [[[u32; 5]; 5]; 64],
) -> bool
    requires { (n ≤ 64) × (length values.old ≡ 64) }
    ensures { FillsGiven result own.now common.now jobs n values.new }
{
    let mut members = [fields::names::blank_name(); 64];
    for k in 0..n {
        members[k] = jobs[k].key.member;
    }
    fills::values_for(own, common, members, n, values)
}

// The lines of the job at a place of a book, written to the start of a lent buffer, and their length.
pub fn job_lines(
    book: &[u8],
    own: &[u8],
    common: &[u8],
    place: usize,
    out: &mut [u8],
) -> Result<usize, CallRefusal>
    ensures { Called own.now common.now book.now place out.old out.new (call_told result) }
{
    let read = match book::read_book(book) {
        Ok(read) => read,
        Err(Refused { why, row }) => return Err(CallRefusal::BookRefused { why, row }),
    };
    let n = read.count;
    let mut values = [[[0u32; 5]; 5]; 64];
    if !gather(own, common, read.jobs, n, &mut values) {
        return Err(CallRefusal::FillsRefused);
    }
    if place == 0 || n < place {
        return Err(CallRefusal::NoPlace);
    }
    let at = place - 1;
    Ok(buffer::write_block(lines_of(values[at], read.jobs[at]), out)?)
}

// The text of a whole book: its jobs' lines in book order, or the one line of a refused book, or of refused fill books, at the start of a
// lent buffer. Each book is read once.
pub fn book_lines(book: &[u8], own: &[u8], common: &[u8], out: &mut [u8; 131072]) -> usize
    ensures book_printed { BookPrinted own.now common.now book.now out.old out.new result }
    ensures within { result ≤ length out.new }
{
    let read = match book::read_book(book) {
        Ok(read) => read,
        Err(Refused { why, row }) => {
            let line = printing::refused_book::book_line(rows::refusals::number_of(why), row);
            return append(out, 0, line);
        }
    };
    let n = read.count;
    let mut values = [[[0u32; 5]; 5]; 64];
    if !gather(own, common, read.jobs, n, &mut values) {
        return append(out, 0, printing::refused_book::book_line(8, 0));
    }
    let mut end: usize = 0;
    for i in 0..n {
        end = append(out, end, lines_of(values[i], read.jobs[i]));
    }
    end
}
