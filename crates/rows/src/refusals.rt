// The refusals of a book, and their numbers (document 01, "Refusals of a book").
ghost use Rattle.std.specs.Prelude.{◌≡◌};
ghost use Rattle.rows.specs.refusals.Numbers.{refusal_number};

// 01's refusals of a book, 1 to 6.
#[derive(Clone, Copy)]
pub enum Refusal {
    TooLong,
    NotCsv,
    NoForm,
    Misplaced,
    TooManyJobs,
    UsedKey,
}

// 01's number of a refusal.
pub fn number_of(why: Refusal) -> u8
    ensures { result ≡ refusal_number why }
{
    match why {
        Refusal::TooLong => 1,
        Refusal::NotCsv => 2,
        Refusal::NoForm => 3,
        Refusal::Misplaced => 4,
        Refusal::TooManyJobs => 5,
        Refusal::UsedKey => 6,
    }
}
