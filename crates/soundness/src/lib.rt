// No code: the definitions in specs/ state what an accepted model and an accepted instance mean for a walk, and proofs/ prove it.
#![tactic(auto)]
