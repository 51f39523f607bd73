// That what is told of where a refusal lies is what `debtarush::job_lines` tells, as a theorem: its statement stands in specs/Explained.antt, with where the rows of a job stand in
// its book in specs/Written.antt, and its proof in proofs/. There is no code here: it speaks of the whole promises of `book::faults::book_fault`, `fills::faults::fill_fault`,
// `job_faults::job_fault` and `debtarush::job_lines`.
#![tactic(auto)]
