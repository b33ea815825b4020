// Layers: at most 192 rows of marks, what they say of a path, and how two are squashed.

#![tactic(auto)]

pub mod layer;
pub mod marking;
pub mod squash;
pub mod writing;
