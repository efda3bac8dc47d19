//! The rules of bind, join and forget, worked in place on a lent table of groups.
#![tactic(auto)]

mod bench;
mod groups;
pub mod lent;
mod rule;
#[cfg(test)]
mod tests;
