// Walks by hand: the steps of a walk over a function's code, for functions over lent lists of structs, or over structs
// that hold a lent list. The check walks all functions of today by itself; `numbers` has laws of a reader in these
// steps. No code, and nothing of what the crates above it are about: proofs/ has the steps.

#![tactic(auto)]
