// No code that runs: the theory's definitions and first laws are in specs/, its theorems in proofs/.
#![tactic(auto)]
