// The rules of document 01 as definitions that run: they stand in specs/, and there is no code here.
#![tactic(auto)]
