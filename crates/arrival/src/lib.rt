// Document 02, W14: order of arrival is nobody's business. Theorems only, no code; they stand on demand 3 (the crate history).
#![tactic(auto)]
