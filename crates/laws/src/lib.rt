// No code: definitions and laws that more than one crate needs.
#![tactic(auto)]
