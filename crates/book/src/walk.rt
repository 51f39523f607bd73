// The rows of a job book, one by one (document 01, "The job book" and "Refusals of a book"): the jobs that they are; or the first bad row,
// with its refusal, 3 to 6.
//
// What a job book is stands in `specs/JobBook.antt`, and what rows one may begin with in `specs/Beginning.antt`, with no reader in either.
// The loop's invariant is in the same words: the rows passed are rows that a job book may begin with, and the values held are those of
// their jobs. What is hard is that the first bad row is the first with which no job book begins, wherever one might cut the jobs. The walk
// hands back where it stopped, so that a refusal can be told with what lies there.
ghost use Rattle.std.specs.Prelude.{◌≤◌, length};
ghost use Rattle.csv_text.specs.rfc4180.Rfc4180.{Readable};
ghost use Rattle.book.specs.steps.Stop.{StopIs};

use crate::step;
use jobs::{Job, Took};
use rows::refusals::Refusal;

// Where the walk stopped: behind the last row, or at the first bad one, with its refusal; where that row starts, the last job, and the jobs. A row
// out of place leaves the last job as it stood; a B row that may not begin a job has its own there, which is not among the jobs.
#[derive(Clone, Copy)]
pub struct Stop {
    pub ending: Result<(), Refusal>,
    pub row: usize,
    pub at: usize,
    pub job: Job,
    pub count: usize,
    pub jobs: [Job; 64],
}

// The rows of an RFC 4180 text, one by one, as far as a job book may begin with them.
pub(crate) fn walk_rows(s: &[u8]) -> Stop
    requires s_len_bound { length s.now ≤ 65536 }
    requires readable { Readable s.now }
    ensures { StopIs s.now result }
{
    let mut job = jobs::blank_job();
    let mut jobs = [job; 64];
    let mut keys = [job.key; 64];
    let mut count: usize = 0;
    let mut row: usize = 1;
    let mut at: usize = 0;
    // by no fixed step: each row begins where the one before it ends
    loop {
        let step = step::step_at(s, at, job);
        job = step.job;
        let took = match step.way {
            Ok(took) => took,
            Err(why) => {
                return Stop {
                    ending: Err(why),
                    row,
                    at,
                    job,
                    count,
                    jobs,
                };
            }
        };
        match took {
            Took::Joined => {}
            Took::Started => {
                if let Err(why) = rows::keys::may_begin(&keys[..count], job.key) {
                    return Stop {
                        ending: Err(why),
                        row,
                        at,
                        job,
                        count,
                        jobs,
                    };
                }
                keys[count] = job.key;
                count += 1;
            }
        }
        jobs[count - 1] = job;
        if s.len() <= step.next {
            return Stop {
                ending: Ok(()),
                row,
                at,
                job,
                count,
                jobs,
            };
        }
        at = step.next;
        row += 1;
    }
}
