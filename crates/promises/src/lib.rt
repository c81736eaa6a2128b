// The promises: what document 01 demands, restated over the definitions that the contracts cite, and its worked
// examples as one table. No code: specs/ says what is promised, proofs/ proves it.

#![tactic(auto)]
