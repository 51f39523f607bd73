// The refusals of a job by number (document 01, Refusals of a job; 02, P1, P3, P4 and P5). Of two the lower is told, which is the lesser in their order.
ghost use Rattle.std.specs.Prelude.{◌≡◌};
ghost use Rattle.kinds.specs.refusals.Refusals.{refusal_number};

// The refusals of a job, 11 to 20, in their order.
#[derive(Clone, Copy, PartialEq, Eq, PartialOrd, Ord)]
pub enum JobRefusal {
    OutOfRange,
    LargeCatchment,
    TooIntense,
    OverObstructed,
    NoFill,
    TooManyOptional,
    UpperBelowLower,
    NoTrain,
    NotAbove,
    TypeE,
}

// The number with which a refusal is told.
impl From<JobRefusal> for u8 {
    ghost from_gives = { λ refusal number. number ≡ refusal_number refusal };

    fn from(refusal: JobRefusal) -> u8 {
        match refusal {
            JobRefusal::OutOfRange => 11,
            JobRefusal::LargeCatchment => 12,
            JobRefusal::TooIntense => 13,
            JobRefusal::OverObstructed => 14,
            JobRefusal::NoFill => 15,
            JobRefusal::TooManyOptional => 16,
            JobRefusal::UpperBelowLower => 17,
            JobRefusal::NoTrain => 18,
            JobRefusal::NotAbove => 19,
            JobRefusal::TypeE => 20,
        }
    }
}
