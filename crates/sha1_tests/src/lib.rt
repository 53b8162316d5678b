// Worked examples of SHA-1 and of the id: theorems only, no code.
#![tactic(auto)]
