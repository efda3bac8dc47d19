//! What a bind has to know of the term: no more of it is kept.
ghost use Rattle.std.specs.Prelude.{◌≡◌, ◌<◌, ◌≤◌, true};
ghost use Rattle.domain.specs.Terms.{beside, bare_term, over_term};

use crate::mask::single;

/// A term as a bind knows it. Terms that no bind takes can be said too, and are refused.
#[derive(Clone, Copy, PartialEq, Eq, Debug)]
pub struct Term {
    /// whether the term is a position by itself
    pub bare: bool,
    /// the mask of the positions that the term holds
    pub held: u16,
    /// the mask of those that it holds more than once
    pub repeated: u16,
}

impl Term {
    /// A position by itself. One of 16 or more is in no mask, so the term is then one that no bind takes.
    pub fn position(p: u8) -> Term
        ensures inside { p < 16 → result ≡ bare_term p }
        ensures past { 16 ≤ p → result ≡ record { bare = true; held = 0; repeated = 0 } }
    {
        Term {
            bare: true,
            held: single(p),
            repeated: 0,
        }
    }

    /// A term over the positions of a mask, some of which it holds more than once; over none it is a constant.
    pub fn over(held: u16, repeated: u16) -> Term
        ensures { result ≡ over_term held repeated }
    {
        Term {
            bare: false,
            held,
            repeated,
        }
    }

    /// The two terms side by side, as arguments of one compound.
    pub fn beside(self, other: Term) -> Term
        ensures { result ≡ beside self other }
    {
        let both = self.held & other.held;
        Term::over(
            self.held | other.held,
            self.repeated | other.repeated | both,
        )
    }
}
