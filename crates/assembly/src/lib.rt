// What the fragments' promises come to over many calls: theorems only, no code. The history of calls is in specs/History.antt, the theorems in proofs/.
#![tactic(auto)]
