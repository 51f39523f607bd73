// Where the refusal of a book lies (document 01, "Refusals of a book", 1 to 6; "where a refusal lies"): where the text stops being RFC 4180;
// why a row has no form; which rule a row out of place breaks; the 65th job; the earlier B row with a key that is used again.
//
// What is told is stated of the book alone, and the number and row of it are those of the book's reading: the walk over the rows is the
// reader's own. What lies where it stopped is asked only then.
ghost use Rattle.std.specs.Prelude.{◌≡◌, ◌≤◌, length, drop};
ghost use Rattle.csv_text.specs.rfc4180.Rfc4180.{Readable};
ghost use Rattle.book.specs.faults.Rules.{UsedAt};
ghost use Rattle.book.specs.faults.Faults.{BookLies};
ghost use Rattle.book.specs.faults.FormAlone.{FormLies};
ghost use Rattle.book.specs.steps.Stop.{StopIs};
ghost use Rattle.book.specs.steps.Faulted.{RuleAt, rows_in_river, UsedAmong};

use crate::walk;
use crate::walk::Stop;
use csv_text::strays::TextFault;
use jobs::Job;
use jobs::misplaced::Misplaced;
use jobs::stages::Stage;
use rows::faults::RowFault;
use rows::keys::Key;
use rows::refusals::Refusal;

// Where the refusal of a book lies: the text's fault; a row and why it has no form; a row, or one past the last, and the rule of 4; the
// B row of a 65th job; a B row with a key used before, and the earlier B row.
#[derive(Clone, Copy)]
pub enum BookFault {
    TooLong,
    Text(TextFault),
    Row(usize, RowFault),
    Misplaced(usize, Misplaced),
    TooManyJobs(usize),
    UsedKey(usize, usize),
}

// The rule by which the row that starts at a place is out of place; nothing, where it is in its place or has no form.
fn rule_at(s: &[u8], at: usize, job: Job) -> Option<Misplaced>
    requires at_in_bounds { at ≤ length s.now }
    requires readable { Readable (drop at s.now) }
    ensures { RuleAt s.now at job result }
{
    let row = rows::read_row(s, at).row?;
    jobs::misplaced::rule_of(job, row)
}

// How many river rows a job has.
fn river_count(stage: Stage) -> usize
    ensures { result ≡ rows_in_river stage }
{
    match stage {
        Stage::Unbegun => 0,
        Stage::Dry => 0,
        Stage::Scoured => 1,
        Stage::Crossed => 2,
    }
}

// The B row of the job with a key, back from one past the rows of all of them.
fn earlier_row(jobs: [Job; 64], n: usize, row: usize, key: Key) -> usize
    requires { UsedAmong jobs n row key }
    ensures { (w : UsedAmong jobs n row key) → UsedAt w.of w.written result }
{
    let mut left = n;
    let mut at = row;
    while 0 < left {
        left -= 1;
        let job = jobs[left];
        let stage = job.stage;
        let river = river_count(stage);
        at = at - job.count - river - 1;
        let own = job.key;
        if rows::keys::same_key(own, key) {
            return at;
        }
    }
    at
}

// What lies where the walk stopped; nothing, where the bytes are a job book. The walk refuses a row with 3 to 6 alone.
fn stop_fault(s: &[u8], stop: Stop) -> Option<BookFault>
    requires s_len_bound { length s.now ≤ 65536 }
    requires stop_is { StopIs s.now stop }
    ensures { BookLies s.now result }
{
    let Err(why) = stop.ending else {
        if stop.job.count == 0 {
            return Some(BookFault::Misplaced(stop.row + 1, Misplaced::NoLoad));
        }
        return None;
    };
    match why {
        Refusal::TooLong | Refusal::NotCsv => unreachable!(),
        Refusal::NoForm => {
            let fault = rows::faults::fault_at(s, stop.at)?;
            Some(BookFault::Row(stop.row, fault))
        }
        Refusal::Misplaced => {
            let rule = rule_at(s, stop.at, stop.job)?;
            Some(BookFault::Misplaced(stop.row, rule))
        }
        Refusal::TooManyJobs => Some(BookFault::TooManyJobs(stop.row)),
        Refusal::UsedKey => {
            let earlier = earlier_row(stop.jobs, stop.count, stop.row, stop.job.key);
            Some(BookFault::UsedKey(stop.row, earlier))
        }
    }
}

// Where the refusal of a book lies; nothing, where it is a job book.
pub fn book_fault(book: &[u8]) -> Option<BookFault>
    ensures { BookLies book.now result }
{
    if crate::LONGEST < book.len() {
        return Some(BookFault::TooLong);
    }
    // `is_csv` passes a text faster than the walk that tells where it stops
    if !csv_text::is_csv(book) {
        let Some(fault) = csv_text::strays::text_fault(book) else {
            unreachable!()
        };
        return Some(BookFault::Text(fault));
    }
    stop_fault(book, walk::walk_rows(book))
}

// Why a row of a book has no form, whatever stands before it; nothing where it has one, or there is no such row, or the text is not RFC 4180.
// The first row is there in the empty text too, where it starts at the end.
pub fn form_fault(book: &[u8], row: usize) -> Option<RowFault>
    ensures { FormLies book.now row result }
{
    if !csv_text::is_csv(book) {
        return None;
    }
    if row == 1 {
        return rows::faults::fault_at(book, 0);
    }
    let start = csv_text::places::start_of(book, row);
    if book.len() <= start {
        return None;
    }
    rows::faults::fault_at(book, start)
}
