// A table of one rule.
#![tactic(auto)]
