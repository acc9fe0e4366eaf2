#![tactic(auto)]

// From a system to its model. The model of a system under a clash rule is in specs/, and proofs/ has the laws of it.
