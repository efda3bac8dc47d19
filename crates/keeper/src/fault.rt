//! The faults of a keeper.
ghost use Rattle.std.specs.Prelude.{◌≡◌};

use domain::refusal::Refusal;

/// A keeper's own fault: the refusal that the call met.
#[derive(Clone, Copy, PartialEq, Eq, Debug)]
pub struct KeeperFault {
    /// what was refused
    pub refusal: Refusal,
}

impl From<Refusal> for KeeperFault {
    ghost from_gives = { λ e f. f ≡ record { refusal = e } };

    fn from(refusal: Refusal) -> KeeperFault {
        KeeperFault { refusal }
    }
}
