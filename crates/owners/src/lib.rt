// Theorems on the list of forty sessions, of the definitions that the contracts of `sessions` cite: see specs/.
#![tactic(auto)]
