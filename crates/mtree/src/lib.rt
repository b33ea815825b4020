// One line of a manifest: a path word and its keywords.

#![tactic(auto)]

mod entries;
mod lexer;
pub mod line;
pub mod numbers;
pub mod pieces;
