// Worked exchanges with the receiving session: theorems only, no code.
#![tactic(auto)]
