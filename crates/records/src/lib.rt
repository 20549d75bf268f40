// The three records, and the one place in the code that knows where their parts stand. The readers: for every byte string
// the values, or the first refusal that the paper lists. The writers: the parts of a plan, each whole or not at all.
#![tactic(auto)]

pub mod choice;
mod form;
pub mod grid;
pub mod model;
pub mod plan;
mod rows;
mod timings;
