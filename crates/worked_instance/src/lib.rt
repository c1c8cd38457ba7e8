// No code: proofs/ compute an accepted model, an instance that conforms to it and walks through it, so that demand 3 speaks of something.
#![tactic(auto)]
