// The fields of a layer file, what each says, and why a file is refused.

#![tactic(auto)]

pub mod fault;
pub mod field;
pub mod said;
pub mod texts;
