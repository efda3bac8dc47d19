//! The keeper that tells the core alone, in a list that its owner lends.
#![tactic(auto)]

ghost use Rattle.std.specs.Option.{ForSome};
ghost use Rattle.list_keeper.specs.Keeping.{Kept};

mod calls;
mod change;
mod entries;
mod head;
mod store;
#[cfg(test)]
mod tests;

use crate::head::Head;

/// A keeper whose capacity is the length of the list that its owner lends. The list stays untouched until the
/// keeper is opened; from then on the core stands at its start, ascending, and the entries behind are 0.
#[derive(Drop)]
pub struct ListKeeper<'a> {
    // none until it is opened
    head: Option<Head>,
    list: &'a mut [u16],
    ghost kept: { ForSome head (λ h. Kept h list.now) },
}
