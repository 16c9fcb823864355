// Demand 3 of 01. The statement stands in specs/, its proof in proofs/; there is no code: the run is that of `pitch_search` and of `lag_reader`.
#![tactic(auto)]
