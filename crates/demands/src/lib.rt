// This crate holds the buyer's demands as theorems; it has no code.
#![tactic(auto)]
