// Laws of the rules: the tokens of a written statement have its shape, and its shape means the statement; there is no code here.
#![tactic(auto)]
