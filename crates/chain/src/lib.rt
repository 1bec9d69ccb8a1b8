// A chain of bench calls against one plain directory. Nothing here runs; the definitions are in specs/, the theorems in proofs/.
#![tactic(auto)]
