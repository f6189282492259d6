#![tactic(auto)]

// What a player may count on that paces its speech by `shown::ready_ticks`: laws (proofs/), and no code.
