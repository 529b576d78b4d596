// No code: total, valid, k-atomic orders of a register by list positions, the anomalies that leave it without one, and the tests of
// a given order (specs/); what an anomaly prevents (proofs/).
#![tactic(auto)]
