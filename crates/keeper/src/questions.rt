//! Questions to a keeper, as values.
ghost use Rattle.keeper.specs.Questions.{Asks};

use crate::calls::Keeper;
use crate::fault::KeeperFault;

/// A question, with the positions that it is about.
#[derive(Clone, Copy, PartialEq, Eq, Debug)]
pub enum Question {
    /// does no group hold the position?
    Ground(u8),
    /// is it free?
    Free(u8),
    /// is it linear?
    Linear(u8),
    /// does one group hold both?
    Pair(u8, u8),
}

impl Question {
    /// The keeper's answer.
    pub fn ask<K: Keeper>(self, keeper: &K) -> Result<bool, KeeperFault>
        ensures { Asks (K.Keeper.told keeper.now) self result }
    {
        match self {
            Question::Ground(p) => keeper.is_ground(p),
            Question::Free(p) => keeper.is_free(p),
            Question::Linear(p) => keeper.is_linear(p),
            Question::Pair(p, q) => keeper.share(p, q),
        }
    }
}
