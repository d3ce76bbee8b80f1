// Laws of the sorted indexes of statements and renames that lie in the tables, for those that read, judge and change design memory.
#![tactic(auto)]
