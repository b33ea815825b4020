// The archive of a session: the calls that were made on it, and making them again.

#![tactic(auto)]

pub mod call;
pub mod filing;
pub mod refit;
pub mod regroup;
pub mod replay;
pub mod reply;
pub mod theorems;
