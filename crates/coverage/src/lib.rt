//! The theory of coverage: what the groups of a description cover, the core, and how the changes act on both.
#![tactic(auto)]

pub mod action;
pub mod changes;
pub mod cores;
pub mod groups;
pub mod least;
pub mod likeness;
pub mod listing;
#[cfg(test)]
mod tests;
