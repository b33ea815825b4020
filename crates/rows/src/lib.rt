// Rows in path order: a path and a value each, one way to look among them, and tables of them.

#![tactic(auto)]

pub mod order;
mod position;
pub mod row;
pub mod sorted;
pub mod table;
