// Scripts: texts that ask for calls on a session, line by line.

#![tactic(auto)]

mod arguments;
mod fault;
mod line;
pub mod script;
pub mod theorems;
mod values;
mod verb;
