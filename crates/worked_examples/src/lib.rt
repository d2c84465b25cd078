// The examples of rules 1.17, 2.4, 3.13 and 3.18, as one table: specs/WorkedExamples.antt has the table, proofs/Table.antt its proof. No code.
#![tactic(auto)]
