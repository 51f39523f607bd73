// The jobs of a book by value, with their number; or the refusal of the book, with its row (document 01, "Refusals of a book"): "the
// book then yields no job".
//
// The jobs stand in 64 places, as many as a book may have, the unused ones blank.
use jobs::Job;
use rows::refusals::Refusal;

// The number of jobs and the jobs themselves, in an array: a call that could not fail still cannot, and what allocates can.
#[derive(Clone, Copy)]
pub struct Book {
    pub count: usize,
    pub jobs: [Job; 64],
}

// Why a book is refused, and the row.
#[derive(Clone, Copy)]
pub struct Refused {
    pub why: Refusal,
    pub row: usize,
}
