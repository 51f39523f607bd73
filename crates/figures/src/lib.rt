// The starred figures of document 01 and those of the requests of 02, proved of the definitions: specs/Figures.antt has the lists, and proofs/Figures.antt
// the theorems. There is no code here.
#![tactic(auto)]
