// Checks by scripts: what edits make of sessions, layers and flat trees.

#![tactic(auto)]

#[cfg(test)]
mod calls;
#[cfg(test)]
mod covering;
#[cfg(test)]
mod kit;
#[cfg(test)]
mod laying;
#[cfg(test)]
mod refusals;
#[cfg(test)]
mod replays;
#[cfg(test)]
mod rooms;
#[cfg(test)]
mod scripts;
#[cfg(test)]
mod worked;
