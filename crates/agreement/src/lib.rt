#![tactic(auto)]

// Demand 3 is about whole circles of sessions: what stands here is definitions (specs/) and proofs (proofs/), and no
// code.
