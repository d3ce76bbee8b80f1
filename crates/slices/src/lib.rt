// Laws of the rules: slices of slices, bundles of bundles, slices of bundles; there is no code here.
#![tactic(auto)]
