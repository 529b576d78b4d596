// Pure mathematics: no code. The definitions stand in specs/, the theorems in proofs/.
#![tactic(auto)]
