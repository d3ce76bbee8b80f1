// What is read is admitted: theorems about the rules; they stand in specs/, and there is no code here.
#![tactic(auto)]
