// The specification computed over the vectors: the statement stands in specs/Cases.antt, and there is no code here.
#![tactic(auto)]
