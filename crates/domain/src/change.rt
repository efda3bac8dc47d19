//! The calls that change a description.
ghost use Rattle.std.specs.Prelude.{◌≡◌};
ghost use Rattle.domain.specs.Changes.{groups_in, map_change};

use crate::listing::Listing;
use crate::term::Term;

/// A call that changes a description, with its arguments. `G` carries the groups of a join.
#[derive(Clone, Copy, PartialEq, Eq, Debug)]
pub enum Change<G> {
    /// binds the position to the term
    Bind {
        /// the position that is bound
        position: u8,
        /// what is known of the term
        term: Term,
    },
    /// joins what another description tells
    Join(Listing<G>),
    /// forgets the positions of the mask
    Forget(u16),
}

impl<G: Copy> Change<G> {
    /// What carries the groups, where the change has any.
    pub fn groups(self) -> Option<G>
        ensures { result ≡ groups_in self }
    {
        match self {
            Change::Join(other) => Some(other.groups),
            Change::Bind { .. } | Change::Forget(_) => None,
        }
    }

    /// The same change, its groups carried by something else.
    pub fn with_groups<H: Copy>(self, groups: H) -> Change<H>
        ensures { result ≡ map_change (λ _. groups) self }
    {
        match self {
            Change::Bind { position, term } => Change::Bind { position, term },
            Change::Join(Listing { marks, .. }) => Change::Join(Listing { marks, groups }),
            Change::Forget(mask) => Change::Forget(mask),
        }
    }
}
