// What the programs print: a listing, or the one line of a refusal.

#![tactic(auto)]

pub mod refusal;
pub mod report;
