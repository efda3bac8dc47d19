//! Why an entry was not added.

/// What kept an entry out of a roll.
#[derive(Clone, Copy, PartialEq, Eq, Debug)]
pub enum NotAdded {
    /// its key is there already
    Held,
    /// no entry is spare
    Full,
}
