//! The core of a table, as an ascending list.
ghost use Rattle.std.specs.Prelude.{◌≤◌, length};
ghost use Rattle.coverage.specs.Listing.{WritesCore, FillsCore};
ghost use Rattle.domain.specs.Coverage.{CoreFits};
ghost use Rattle.domain.specs.Tables.{TableGroup};
ghost use Rattle.domain.specs.declared.limits.TheConstants.{MOST_POSITIONS};

use crate::groups::Groups;
use domain::refusal::Refusal;
use roll::Roll;

impl Groups<'_> {
    /// Puts the core at the start of a lent list, and answers how many groups it has. Refused where no description
    /// has so many positions, and where the list is too short, which then stays.
    pub fn write_core(&self, list: &mut [u16]) -> Result<usize, Refusal>
        ensures { WritesCore self.now.positions self.now.table.now list.old list.new result }
    {
        let count = usize::from(self.core_count()?);
        if list.len() < count {
            return Err(Refusal::Room);
        }
        Ok(self.fill_core(list))
    }

    // The same, where there is room. The groups are met in ascending order, so each goes behind the others.
    fn fill_core(&self, list: &mut [u16]) -> usize
        requires few { self.now.positions ≤ MOST_POSITIONS }
        requires fits { CoreFits (TableGroup self.now.positions self.now.table.now)
            (length list.old) }
        ensures { FillsCore (TableGroup self.now.positions self.now.table.now)
            list.old list.new result }
    {
        let mut roll = Roll::over(list);
        for g in 1..1u16 << self.positions {
            if self.is_core(g) {
                // there is room, and no group comes twice
                let _ = roll.add(g);
            }
        }
        roll.len()
    }
}
