// What is proved of the standard track that Write Track makes: specs/StandardTrack.antt has its list, specs/Claims.antt what is claimed of it, and
// proofs/Theorems.antt the proofs. No code.
#![tactic(auto)]
