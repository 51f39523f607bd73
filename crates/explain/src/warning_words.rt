// What is odd in a job that is not refused, in words: a warning is no refusal, and no verdict rests on it.
use crate::job_words::{JobOf, JobRow};
use crate::words::Grouped;
use kinds::Row;
use lines::Answer;
use std::io;
use warnings::Way;

// Forces, so named, where they act one way only.
fn tell_way(rt: &impl Print, job: JobOf, forces: &str, way: Option<Way>) -> io::Result<()> {
    let toward = match way {
        None => return Ok(()),
        Some(Way::Forward) => "+x",
        Some(Way::Backward) => "-x",
    };
    println!(rt;
        "{}\n  {forces} acts toward {toward} only: a row with the other sign tries the other way.   [warning]",
        job.row(1)
    )
}

// What is odd in a load row, on a base of this width.
fn tell_load(rt: &impl Print, place: JobRow, width: u32, row: Row) -> io::Result<()> {
    let odd = warnings::row_warnings(width, row);
    if odd.outside {
        println!(rt;
            "{}\n  V stands outside the base: x is measured from the middle of the base, which is {} mm wide.   [warning]",
            place.number(row.kind, 5),
            Grouped(width as u64)
        )?;
    }
    if odd.low {
        println!(rt;
            "{}\n  is below 100 mm, and H is not 0: metres written for millimetres?   [warning]",
            place.number(row.kind, 7)
        )?;
    }
    Ok(())
}

// What is odd in the load rows, the last of the job.
fn tell_loads(rt: &impl Print, told: JobOf) -> io::Result<()> {
    let job = told.job;
    let before = job_faults::row_count(*job).saturating_sub(job.count);
    for (i, row) in job.loads.iter().take(job.count).enumerate() {
        let place = JobRow(told.base.behind(before).behind(i));
        tell_load(rt, place, job.base.n1.size, *row)?;
    }
    Ok(())
}

// What is odd in a job that is not refused.
pub(crate) fn tell(rt: &impl Print, told: JobOf, answer: Answer) -> io::Result<()> {
    let base = told.row(1);
    if warnings::unserved(answer) {
        println!(rt;
            "{base}\n  No service combination was checked: no set of its load rows stands in I, II or III.   [warning]"
        )?;
    }
    let odd = warnings::job_warnings(told.job.loads, told.job.count);
    if odd.no_dead {
        println!(rt; "{base}\n  The job has no DL row.   [warning]")?;
    }
    tell_way(rt, told, "Wind (WL)", odd.wind)?;
    tell_way(rt, told, "Earthquake (SF)", odd.earthquake)?;
    tell_loads(rt, told)
}
