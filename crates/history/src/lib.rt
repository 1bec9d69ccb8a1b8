// Demand 3: sequences of calls against one plain directory. Nothing here runs; the definitions are in specs/, the theorems in proofs/.
#![tactic(auto)]
