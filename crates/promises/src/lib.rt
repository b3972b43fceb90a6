// This crate holds the theorems for readers, in specs/; it has no code.
#![tactic(auto)]
