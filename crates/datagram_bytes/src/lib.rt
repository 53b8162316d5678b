// What the bytes of a datagram are, and what reading and writing come to together: definitions and theorems only, no code.
#![tactic(auto)]
