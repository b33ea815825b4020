// Layer files: the bytes that a layer is kept in.

#![tactic(auto)]

mod pieces;
pub mod read;
pub mod theorems;
pub mod write;
