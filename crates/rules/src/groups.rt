//! The groups of a lent table: which masks are groups, what they reach, and walks over those inside a mask.
ghost use Rattle.std.specs.Prelude.{◌≡◌, ℕ, ◌-◌, ◌^◌, ◌<◌, ◌≤◌, ◌↔◌, IsTrue};
ghost use Rattle.domain.specs.Filling.{Hull, Filled, Fills, FilledBoth};
ghost use Rattle.domain.specs.Groups.{IsGround, Shared, Side};
ghost use Rattle.domain.specs.Masks.{In};
ghost use Rattle.domain.specs.Tables.{TableGroup, is_group};
ghost use Rattle.domain.specs.declared.limits.TheConstants.{MOST_POSITIONS};
ghost use Rattle.rules.specs.Reaching.{Reach};

use domain::mask::{meets, without};
use domain::subsets::Subsets;
use domain::table;

// A lent table that is asked for its groups, of so many positions.
#[derive(Clone, Copy)]
pub(crate) struct Groups<'a> {
    pub(crate) table: &'a [u8],
    pub(crate) positions: u8,
    ghost few: { positions ≤ MOST_POSITIONS },
}

impl Groups<'_> {
    pub(crate) fn is_group(self, g: u16) -> bool
        ensures { result ≡ is_group self.entry.positions self.entry.table.now g }
    {
        table::is_group(self.table, self.positions, g)
    }

    // The positions that lie in a group with one of the mask.
    pub(crate) fn reach(self, mask: u16) -> u16
        ensures { Reach (TableGroup self.entry.positions self.entry.table.now) mask result }
    {
        (1..1u16 << self.positions)
            .filter(|g| meets(*g, mask) && table::holds(self.table, *g))
            .fold(0, |reached, g| reached | g)
    }

    // The positions that no group holds.
    pub(crate) fn ground_mask(self) -> u16
        ensures { (p : ℕ) → (In p result
            ↔ IsGround self.entry.positions (TableGroup self.entry.positions self.entry.table.now)
            p) }
    {
        let every = all(self.positions);
        without(every, self.reach(every))
    }

    // The union of the groups inside u that meet both masks: 0 where there is none.
    pub(crate) fn hull(self, a: u16, b: u16, u: u16) -> u16
        ensures { Hull (Shared (TableGroup self.entry.positions self.entry.table.now) a b) u
            result }
    {
        Subsets::of(u).fold(0, |united, s| {
            if self.is_shared(a, b, s) {
                united | s
            } else {
                united
            }
        })
    }

    // Whether some group inside u that meets the mask a makes u with the base. It holds all that the base
    // lacks of u, so only what it has in common with the base is left to try.
    pub(crate) fn filled(self, a: u16, base: u16, u: u16) -> bool
        ensures { IsTrue result
            ↔ Filled (Side (TableGroup self.entry.positions self.entry.table.now) a) base u }
    {
        let common = u & base;
        let lacking = u ^ common;
        self.fills(a, base, u, lacking)
            || Subsets::of(common).any(|s| self.fills(a, base, u, lacking | s))
    }

    // Whether g is a group that meets the mask a and makes u with the base.
    fn fills(self, a: u16, base: u16, u: u16, g: u16) -> bool
        ensures { IsTrue result
            ↔ Fills (Side (TableGroup self.entry.positions self.entry.table.now) a) base u g }
    {
        base | g == u && self.is_shared(a, a, g)
    }

    // Whether two groups inside u, of which one meets a and one meets b, make u with the base.
    pub(crate) fn filled_both(self, a: u16, b: u16, base: u16, u: u16) -> bool
        ensures { IsTrue result
            ↔ FilledBoth (Side (TableGroup self.entry.positions self.entry.table.now) a)
            (Side (TableGroup self.entry.positions self.entry.table.now) b) base u }
    {
        Subsets::of(u).any(|s| self.is_shared(a, a, s) && self.filled(b, base | s, u))
    }

    // Whether the mask s is a group that meets both masks.
    fn is_shared(self, a: u16, b: u16, s: u16) -> bool
        ensures { IsTrue result
            ↔ Shared (TableGroup self.entry.positions self.entry.table.now) a b s }
    {
        meets(s, a) && meets(s, b) && self.is_group(s)
    }
}

// The mask of all positions below n.
pub(crate) fn all(n: u8) -> u16
    requires { n < 16 }
    ensures { result ≡ 2 ^ n - 1 }
{
    (1 << n) - 1
}
