// Edits of trees: what they do, what refuses them, and what an editable tree promises.

#![tactic(auto)]

pub mod action;
pub mod checks;
pub mod editable;
