// Where the refusal of a job lies (document 01, refusals 11 to 16; 02, P1, P3, P4 and P5), in words: the row, what stands there, and the
// figures that were compared. The rows of a job follow each other in the book, its B row first.
use crate::columns;
use crate::columns::ColumnOf;
use crate::words::{Grouped, RowOf};
use job_faults::{JobFault, Out};
use jobs::Job;
use kinds::{Column, Kind};
use std::{fmt, io};

// A row of a job.
#[derive(Clone, Copy)]
pub(crate) struct JobRow<'a>(pub(crate) RowOf<'a>);

impl<'a> fmt::Display for JobRow<'a> {
    fn fmt<W: fmt::Write>(&self, f: &mut fmt::Formatter<W>) -> fmt::Result {
        let row = self.0;
        write!(f, "job {}, {row}", row.key())
    }
}

impl<'a> JobRow<'a> {
    // A number of the row.
    pub(crate) fn number(self, kind: Kind, column: usize) -> NumberOf<'a> {
        NumberOf {
            row: self,
            kind,
            column,
        }
    }
}

// A number of a row of a job, by its column.
#[derive(Clone, Copy)]
pub(crate) struct NumberOf<'a> {
    row: JobRow<'a>,
    kind: Kind,
    column: usize,
}

impl<'a> fmt::Display for NumberOf<'a> {
    fn fmt<W: fmt::Write>(&self, f: &mut fmt::Formatter<W>) -> fmt::Result {
        let column = self.column;
        write!(
            f,
            "{}, column {}, {}: {}",
            self.row,
            Grouped(column as u64),
            ColumnOf {
                kind: self.kind,
                column
            },
            self.row.0.field(column),
        )
    }
}

// The range of a column.
#[derive(Clone, Copy)]
struct Range(Column);

impl fmt::Display for Range {
    fn fmt<W: fmt::Write>(&self, f: &mut fmt::Formatter<W>) -> fmt::Result {
        match self.0 {
            Column::Filled(low, high) => write!(
                f,
                "{} to {}",
                Grouped(low as u64),
                Grouped(high as u64)
            ),
            Column::Signed(below, above) => write!(
                f,
                "-{} to {}",
                Grouped(below as u64),
                Grouped(above as u64)
            ),
            Column::Empty => Ok(()),
        }
    }
}

// What stands where an LF or CF row names its LL row.
#[derive(Clone, Copy)]
struct Named<'a> {
    named: u32,
    job: &'a Job,
}

impl<'a> fmt::Display for Named<'a> {
    fn fmt<W: fmt::Write>(&self, f: &mut fmt::Formatter<W>) -> fmt::Result {
        let count = self.job.count;
        let Some(before) = self.named.checked_sub(1) else {
            return Ok(());
        };
        match self.job.loads.iter().take(count).nth(before as usize) {
            Some(row) => write!(
                f,
                "that is no LL row but a row of kind {}.",
                columns::letters(row.kind)
            ),
            None => write!(f, "the last one is load row {}.", Grouped(count as u64)),
        }
    }
}

// A job by its B row, the first of its rows in the book.
#[derive(Clone, Copy)]
pub(crate) struct JobOf<'a> {
    pub(crate) base: RowOf<'a>,
    pub(crate) job: &'a Job,
}

impl<'a> JobOf<'a> {
    // A row of the job, the B row being the first.
    pub(crate) fn row(self, position: usize) -> JobRow<'a> {
        JobRow(self.base.behind(position.saturating_sub(1)))
    }

    // A number of a row of the job.
    fn number(self, position: usize, kind: Kind, column: usize) -> NumberOf<'a> {
        self.row(position).number(kind, column)
    }
}

// 11: a number out of range.
fn tell_out(rt: &impl Print, job: JobOf, out: Out) -> io::Result<()> {
    let number = job.number(out.row, out.kind, out.column);
    println!(rt;
        "{number}\n  is out of its range, {}.   [refusal 11]",
        Range(out.range)
    )
}

// 12: a large catchment.
fn tell_catchment(rt: &impl Print, number: NumberOf, catchment: u64) -> io::Result<()> {
    println!(rt;
        "{number}\n  The catchment, {} km2, is above 25,000 km2: the code leaves such a catchment to the Chief Bridge Engineer.   [refusal 12]",
        Grouped(catchment)
    )
}

// 13: a large q.
fn tell_intensity(rt: &impl Print, row: JobRow, intensity: u64) -> io::Result<()> {
    println!(rt;
        "{row}, S\n  The waterway is narrower than the regime width, and its flow q, {} l/s on each metre, is above 50,000.   [refusal 13]",
        Grouped(intensity)
    )
}

// 14: a above A.
fn tell_obstructed(
    rt: &impl Print,
    number: NumberOf,
    obstructed: u64,
    area: u64,
) -> io::Result<()> {
    println!(rt;
        "{number}\n  The obstructed area a, {}, is above the area A, {}.   [refusal 14]",
        Grouped(obstructed),
        Grouped(area)
    )
}

// 15: no value of a fill.
fn tell_fill(rt: &impl Print, row: JobRow, soil: u32, slope: u32) -> io::Result<()> {
    println!(rt;
        "{row}, E\n  Neither the own fill book nor the common one has a value for soil {}, slope {}.   [refusal 15]",
        Grouped(soil as u64),
        Grouped(slope as u64)
    )
}

// 16: the 13th optional row.
fn tell_optional(rt: &impl Print, row: JobRow, optional: u64) -> io::Result<()> {
    println!(rt;
        "{row}\n  is the 13th of {} optional load rows, and a job has at most 12. All load rows but DL, EP and E are optional.   [refusal 16]",
        Grouped(optional)
    )
}

// 17: upper below lower.
fn tell_heights(rt: &impl Print, row: JobRow, upper: u64, lower: u64) -> io::Result<()> {
    println!(rt;
        "{row}, W\n  The upper wetted height, {} mm, is below the lower one, {} mm.   [refusal 17]",
        Grouped(upper),
        Grouped(lower)
    )
}

// 18: an LF or CF row that names no LL row.
fn tell_train(rt: &impl Print, row: JobRow, named: Named) -> io::Result<()> {
    if let Some(kind) = row.0.kind() {
        println!(rt; "{}", row.number(kind, 9))?;
    }
    println!(rt;
        "  names load row {} of the job, and {named}   [refusal 18]",
        Grouped(named.named as u64)
    )
}

// 19: a length not above B.
fn tell_length(rt: &impl Print, row: JobRow, length: u64, width: u64) -> io::Result<()> {
    println!(rt;
        "{row}, G\n  The abutment length, {} mm, is not above the width B of Table 3 for its loading standard, {} mm.   [refusal 19]",
        Grouped(length),
        Grouped(width)
    )
}

// 20: soil type e.
fn tell_type_e(rt: &impl Print, number: NumberOf) -> io::Result<()> {
    println!(rt;
        "{number}\n  Soil type e has no coefficient for surcharge in the code.   [refusal 20]"
    )
}

// Where the refusal of a job lies.
pub(crate) fn tell(rt: &impl Print, job: JobOf, fault: JobFault) -> io::Result<()> {
    match fault {
        JobFault::Sound => Ok(()),
        JobFault::OutOfRange(out) => tell_out(rt, job, out),
        JobFault::LargeCatchment { row, catchment } => tell_catchment(
            rt,
            job.number(row, Kind::S, 5),
            catchment,
        ),
        JobFault::TooIntense { row, intensity } => tell_intensity(rt, job.row(row), intensity),
        JobFault::OverObstructed {
            row,
            obstructed,
            area,
        } => tell_obstructed(rt, job.number(row, Kind::C, 6), obstructed, area),
        JobFault::NoFill { row, soil, slope } => tell_fill(rt, job.row(row), soil, slope),
        JobFault::TooManyOptional { row, optional } => tell_optional(rt, job.row(row), optional),
        JobFault::UpperBelowLower { row, upper, lower } => tell_heights(
            rt,
            job.row(row),
            upper,
            lower,
        ),
        JobFault::NoTrain { row, named } => tell_train(
            rt,
            job.row(row),
            Named {
                named,
                job: job.job,
            },
        ),
        JobFault::NotAbove { row, length, width } => tell_length(rt, job.row(row), length, width),
        JobFault::TypeE { row } => tell_type_e(rt, job.number(row, Kind::G, 6)),
    }
}
