// The order of an atom loop's rows does not matter: demand 3 over texts, and the counts. Theorems alone, over the definition of the reading.
#![tactic(auto)]
