// What may be claimed of the whole, each theorem to be read alone; there is no code here.
#![tactic(auto)]
