// Manifests: the maker's text and its rows.

#![tactic(auto)]

pub mod fault;
pub mod index;
pub mod reader;
pub mod theorems;
