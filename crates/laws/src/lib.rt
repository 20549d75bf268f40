// The laws of the definitions in crate schedule, as theorems; the crate has no code.
#![tactic(auto)]
