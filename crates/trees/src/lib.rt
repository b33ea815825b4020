// Trees: what their entries are, and what they answer.

#![tactic(auto)]

pub mod asked;
pub mod entry;
pub mod fault;
pub mod store;
pub mod tree;
