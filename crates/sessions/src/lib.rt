// Sessions: an open layer over any tree, sealed and parted again.

#![tactic(auto)]

pub mod session;
