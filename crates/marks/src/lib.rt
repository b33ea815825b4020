// Marks: what a layer says of a path, what it makes of the tree below, and how edits change it.

#![tactic(auto)]

pub mod mark;
pub mod theorems;
pub mod writing;
