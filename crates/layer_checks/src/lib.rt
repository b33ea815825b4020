// Checks by scripts: what becomes of layer files, and of layers that are squashed.

#![tactic(auto)]

#[cfg(test)]
mod bytes;
#[cfg(test)]
mod ends;
#[cfg(test)]
mod fields;
#[cfg(test)]
mod groups;
#[cfg(test)]
mod limits;
#[cfg(test)]
mod markers;
#[cfg(test)]
mod order;
#[cfg(test)]
mod outcomes;
#[cfg(test)]
mod printed;
#[cfg(test)]
mod squashes;
#[cfg(test)]
mod texts;
#[cfg(test)]
mod values;
#[cfg(test)]
mod writes;
