// A refit of what a folder holds: what it prints, and the files that it leaves.

#![tactic(auto)]

mod given;
mod making;
pub mod report;
mod stop;
mod telling;
