// The return trip: what is written and read again is what it was. Theorems alone, over the definitions of the writer and the reader.
#![tactic(auto)]
