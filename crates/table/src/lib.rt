#![tactic(auto)]

// Document 01's table of cases under a single proof: what stands here is definitions (specs/) and proofs (proofs/), and
// no code. The program cases has the same rows through the code.
