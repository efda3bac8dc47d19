//! The keeper that holds every group that the rules give, in a table of bits.
#![tactic(auto)]

mod calls;
#[cfg(test)]
mod tests;

use description::Description;

/// A keeper that tells exactly the groups that the rules give, and has room for all there can be.
#[derive(Drop)]
pub struct TableKeeper {
    // none until it is opened
    held: Option<Description>,
}
