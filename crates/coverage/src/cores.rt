//! The core groups of a table.
ghost use Rattle.std.specs.Prelude.{◌↔◌, ℕ, IsTrue};
ghost use Rattle.coverage.specs.Counts.{CoreCount};
ghost use Rattle.coverage.specs.Walks.{CoveredInside, OpenPair};
ghost use Rattle.domain.specs.Coverage.{Core};
ghost use Rattle.domain.specs.Refusals.{first_of};
ghost use Rattle.domain.specs.Requests.{open_tests, Gives};
ghost use Rattle.domain.specs.Tables.{TableGroup};

use crate::groups::Groups;
use domain::limits::check_count;
use domain::mask::has_both;
use domain::refusal::Refusal;
use domain::subsets::Subsets;
use domain::table::is_group;

impl Groups<'_> {
    /// Whether g is a core group.
    pub fn is_core(&self, g: u16) -> bool
        ensures { IsTrue result ↔ Core (TableGroup self.now.positions self.now.table.now) g }
    {
        is_group(self.table, self.positions, g) && self.has_open_pair(g)
    }

    // Whether g, one of the groups, has a pair that no group strictly inside it covers. It stays out of the loops
    // over all masks, most of which are no groups.
    #[inline(never)]
    fn has_open_pair(&self, g: u16) -> bool
        requires { TableGroup self.now.positions self.now.table.now g }
        ensures { IsTrue result ↔ Core (TableGroup self.now.positions self.now.table.now) g }
    {
        let mut open = false;
        // left at the first open pair
        'pairs: for p in 0u8..16 {
            for q in p..16 {
                if self.is_open(g, p, q) {
                    open = true;
                    break 'pairs;
                }
            }
        }
        open
    }

    /// How many of them are core groups; refused where no description has so many positions.
    pub fn core_count(&self) -> Result<u16, Refusal>
        ensures { Gives (first_of (open_tests self.now.positions)) result
            (λ k. CoreCount (TableGroup self.now.positions self.now.table.now) k) }
    {
        check_count(self.positions)?;
        let mut count = 0;
        for g in 1..1u16 << self.positions {
            if self.is_core(g) {
                count += 1;
            }
        }
        Ok(count)
    }

    // Whether p and q are a pair of g that no group strictly inside it covers.
    fn is_open(&self, g: u16, p: u8, q: u8) -> bool
        ensures { IsTrue result
            ↔ OpenPair (TableGroup self.now.positions self.now.table.now) g p q }
    {
        has_both(g, p, q) && !self.inside_covers(g, p, q)
    }

    // Whether a group strictly inside g holds both positions.
    fn inside_covers(&self, g: u16, p: u8, q: u8) -> bool
        ensures { IsTrue result
            ↔ CoveredInside (TableGroup self.now.positions self.now.table.now) g p q }
    {
        Subsets::of(g).any(|h| self.is_holding(h, p, q) && h != g)
    }
}
