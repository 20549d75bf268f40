// What the records say, by activity: tables of 32 numbers and words of 32 bits, the widths, and the figures of a plan. The
// checks and the run look things up here; a call that makes a table takes the records' bytes, whatever they are, and says all
// of it.
#![tactic(auto)]

// A number for each activity, by its number.
pub type ByActivity = [u32; 32];

pub mod columns;
pub mod counts;
mod each;
pub mod figures;
pub mod loads;
pub mod ranking;
