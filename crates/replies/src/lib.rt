// What the program `refit` prints: a text for each reply, and its other lines.

#![tactic(auto)]

pub mod lines;
pub mod names;
pub mod text;
