// What follows from the definition of a disk's page: each finding stands on it once, it is ordered, when its last line stands, and that findings of
// the library are accepted. specs/ has the statements and proofs/ their proofs. No code.
#![tactic(auto)]
