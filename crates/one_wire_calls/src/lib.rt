// No code: what the calls on one wire of a file answer is what look-up and then another call answer on memory that the file fills.
#![tactic(auto)]
