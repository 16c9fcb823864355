// Runs of the dispatcher of 02's request 11. The statements on them stand in specs/, their proofs in proofs/; there is no code: the runs are those of `dispatch`.
#![tactic(auto)]
