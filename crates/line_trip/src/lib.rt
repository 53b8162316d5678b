// What a line's writer and reader come to together: theorems only, no code. The round trip is in proofs/RoundTrip.antt, the changed byte in proofs/OneByte.antt.
#![tactic(auto)]
