// Literal records on which a report, a deadline, a removal or a claim that is nearly right shows as wrong, what the run
// says of pages of several rounds, and pages of gangs for 28 to 31; no code.
#![tactic(auto)]
