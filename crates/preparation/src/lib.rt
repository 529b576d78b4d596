// Pure mathematics: no code. The theorems stand in proofs/.
#![tactic(auto)]
