//! The worked examples of the rules, and the shortcuts that they tell from the rules.
#![tactic(auto)]

pub mod examples;
pub mod shortcuts;
#[cfg(test)]
mod tests;
