// The bench points of 01 that are theorems. The statement stands in specs/, its proof in proofs/; there is no code.
#![tactic(auto)]
