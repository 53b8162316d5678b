// A machine that is fed bytes: definitions and laws only (specs/Machine.antt, proofs/Cuts.antt). It has no code.
#![tactic(auto)]
