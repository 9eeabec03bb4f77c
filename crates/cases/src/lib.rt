#![tactic(auto)]

// The cases that document 01 marks to be proved: specs/Cases.antt has them as one table, proofs/Checked.antt the statement that all hold.
