// RFC 4180 text as document 01 has it: what it is stands in `specs/rfc4180/Rfc4180.antt`, a data type for each line of its grammar,
// and its laws in `proofs/rfc4180/`, for every crate. There is no code here.
//
// What is hard is that the grammar gives a text one reading at most.
