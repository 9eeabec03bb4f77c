#![tactic(auto)]

// Pure theory: the definitions are in specs/, the theorems in proofs/.
