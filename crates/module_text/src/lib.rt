// The written text, module by module and by passes over the statements of a file; there is no code here.
#![tactic(auto)]
