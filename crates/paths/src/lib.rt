// Paths: names joined by `/`, in the order of their names.

#![tactic(auto)]

ghost use Rattle.std.specs.Prelude.{◌≡◌, ◌-◌, ◌≤◌, true, length, take, drop, replicate};
ghost use Rattle.paths.specs.Names.{good};

pub mod fault;
mod ops;
pub mod parts;
pub mod prefixes;
pub mod ranks;
mod scan;
pub mod theorems;

// Why a text is no path.
#[derive(Clone, Copy, PartialEq, Eq, Debug)]
pub enum PathFault {
    TooLong,
    // The name of that count, from 0, is bad.
    BadName(u8),
    TooDeep,
}

// A good path: its text, with zeros behind it, so that equal paths are equal values. The length stands beside the
// bytes, and no `ArrayVec` holds them: a path is `Copy`.
#[derive(Clone, Copy)]
pub struct Path {
    bytes: [u8; 120],
    len: usize,
    ghost wide: { length bytes ≡ 120 },
    ghost fits: { len ≤ 120 },
    ghost sound: { good (take len bytes) ≡ true },
    ghost rest: { drop len bytes ≡ replicate (120 - len) 0 },
}
