// What the streams' promises come to over many calls: theorems only, no code. The bench cards are in specs/Cards.antt and proofs/Cards.antt.
#![tactic(auto)]
