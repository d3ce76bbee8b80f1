// A design in its canonical order, and what is admitted in that order: theorems about the rules; they stand in specs/, and there is no code here.
#![tactic(auto)]
