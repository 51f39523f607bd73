// The demands of document 01 on the calls and on what is printed, as theorems: each statement stands in a file of its own in specs/, and its
// proof in proofs/. There is no code here: they speak of `Called` and of `BookPrinted`, which are the whole promises of `debtarush::job_lines` and
// `debtarush::book_lines`.
#![tactic(auto)]
