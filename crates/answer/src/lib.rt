// The answer of a job (document 01, Refusals of a job, The printed answer; 02, P1 and P3 to P5): refusal 11 to 20, or its lines and verdict.
//
// What is hard is the order: a job is refused with the lowest of its numbers, over all its rows, whatever row shows it
// first. The answer is total on every `Job` value, whatever is held of fills, and depends on these alone: Table 4 is a constant.
#![tactic(auto)]

pub mod river;

ghost use Rattle.std.specs.Prelude.{◌≡◌};
ghost use Rattle.sets.specs.Bounded.{Bounded};
ghost use Rattle.sets.specs.Led.{Led};
ghost use Rattle.earth.specs.coefficients.Lent.{fill_of};
ghost use Rattle.checks.specs.Sized.{Sized};
ghost use Rattle.kinds.specs.refusals.Refusals.{refusal_number};
ghost use Rattle.answer.specs.Columns.{base_of};
ghost use Rattle.answer.specs.Answer.{refusal, AnswerIs};
ghost use Rattle.answer.specs.steps.Whole.{WholeIs};

use checks::Base;
use jobs::Job;
use kinds::refusals::JobRefusal;
use kinds::{Kind, Numbers};
use lines::{Answer, RiverLine, Verdict};
use sets::{Combination, Loads};

// The base of a B row. `Base` and `Numbers` are of two other rooms, so that no `From` of this one can join them.
fn base_at(numbers: Numbers) -> Base
    ensures { result ≡ base_of numbers }
{
    Base {
        width: u64::from(numbers.n1.size),
        length: u64::from(numbers.n2.size),
        allowable: u64::from(numbers.n3.size),
        friction: u64::from(numbers.n4.size),
        rock: numbers.n5.size == 1,
    }
}

// A refused job has only VERDICT.
fn refused_answer(why: JobRefusal) -> Answer
    ensures { result ≡ refusal (refusal_number why) }
{
    let none = lines::no_lines();
    Answer {
        verdict: Verdict::Refused(u8::from(why)),
        one: none,
        two: none,
        three: none,
        four: none,
        depth: RiverLine::Missing,
        clear: RiverLine::Missing,
    }
}

// The lines and the verdict of a job that is not refused.
fn whole(base: Base, loads: Loads, depth: RiverLine, clear: RiverLine) -> Answer
    requires sized { Sized base }
    requires bounded { Bounded loads }
    requires led { Led loads }
    ensures { WholeIs base loads depth clear result }
{
    let one = worst::worst_lines(Combination::I, base, loads);
    let two = worst::worst_lines(Combination::II, base, loads);
    let three = worst::worst_lines(Combination::III, base, loads);
    let four = worst::worst_lines(Combination::IV, base, loads);
    lines::verdicts::judged(one, two, three, four, depth, clear)
}

// The answer of a job, by what is held for each soil and slope, 0 where nothing is.
pub fn answer_of(held: [[u32; 5]; 5], job: Job) -> Answer
    ensures { AnswerIs (fill_of held) job result }
{
    if !kinds::ranges::is_ranged(Kind::B, job.base) {
        return refused_answer(JobRefusal::OutOfRange);
    }
    let base = base_at(job.base);
    let taken = loads::loads_of(held, job.loads, job.count);
    let river = river::river_of(job, base.rock);
    match river::both(taken, river) {
        Err(refusal) => refused_answer(refusal),
        Ok((loads, (depth, clear))) => whole(base, loads, depth, clear),
    }
}
