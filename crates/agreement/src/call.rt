//! The calls of an opened keeper and its answers, as values.
use domain::change::Change;
use keeper::{Question, WrittenOut};

/// A call of an opened keeper, with its arguments; the memory that it works in is lent when it is given.
/// `G` carries the groups of a join.
#[derive(Clone, Copy)]
pub enum KeeperCall<G> {
    /// a call that changes the description
    Change(Change<G>),
    /// a question
    Ask(Question),
    /// a write-out, into the list that is lent
    WriteOut,
}

/// What a keeper answers to a call that it does not refuse.
#[derive(Clone, Copy, PartialEq, Eq, Debug)]
pub enum KeeperAnswer {
    /// a change was accepted
    Accepted,
    /// yes or no
    Says(bool),
    /// the count and the marks of a write-out, whose groups stand at the start of the lent list
    Wrote(WrittenOut),
}
