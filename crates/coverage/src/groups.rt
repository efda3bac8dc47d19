//! The groups of a table, and what they cover.
ghost use Rattle.std.specs.Prelude.{◌↔◌, IsTrue};
ghost use Rattle.coverage.specs.Walks.{Holding};
ghost use Rattle.domain.specs.Coverage.{Covers};
ghost use Rattle.domain.specs.Tables.{TableGroup};

use domain::mask::has_both;
use domain::subsets::Subsets;
use domain::table::is_group;

/// The groups of a description, as they lie in a bit table. A table of any length and any number of positions can
/// be given.
#[derive(Clone, Copy)]
pub struct Groups<'a> {
    /// the mask g is bit g % 8 of byte g / 8
    pub table: &'a [u8],
    /// the number of positions
    pub positions: u8,
}

impl Groups<'_> {
    /// Whether the groups cover the pair p, q in the window.
    pub fn covers(&self, window: u16, p: u8, q: u8) -> bool
        ensures { IsTrue result
            ↔ Covers (TableGroup self.now.positions self.now.table.now) window p q }
    {
        Subsets::of(window).any(|g| self.is_holding(g, p, q))
    }

    // Whether g is a group that holds both positions. Most subsets of a window do not hold them.
    pub(crate) fn is_holding(&self, g: u16, p: u8, q: u8) -> bool
        ensures { IsTrue result
            ↔ Holding (TableGroup self.now.positions self.now.table.now) p q g }
    {
        has_both(g, p, q) && is_group(self.table, self.positions, g)
    }
}
