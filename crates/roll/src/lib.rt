//! Rolls: one ordered list for every kind of entry that has a key.
#![tactic(auto)]

mod entries;
mod insertion;
mod key;
mod not_added;
mod search;
#[cfg(test)]
mod tests;

pub use entries::Roll;
pub use key::{Keyed, Ranked};
pub use not_added::NotAdded;
pub use search::{count_key, holds_key};
