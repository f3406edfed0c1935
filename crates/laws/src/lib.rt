// Laws on tests, lists and tables, which the other crates cite. No code.

#![tactic(auto)]
