// What follows from the definitions of the conversion: what the old program printed of an old flux file, the new one prints of its new file, without
// the line of border pulses. specs/ has the statements and proofs/ their proofs. No code.
#![tactic(auto)]
