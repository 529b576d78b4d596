// Pure mathematics: no code. What the theorems say stands in specs/, the theorems in proofs/.
#![tactic(auto)]
