// Laws of tests and of lists, which every crate's laws are built from; there is no code here.
#![tactic(auto)]
