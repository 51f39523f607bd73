// Whole numbers: what a yes-or-no answer says, quotients rounded up and down, and numbers with a sign. How a proof goes by cases stands in
// `proofs/Cases.antt`, and the laws of a yes-or-no answer in `proofs/Deciding.antt`.
#![tactic(auto)]

mod decides;
pub mod rounding;
pub mod signed;
