//! The calls of the table keeper.
ghost use Rattle.std.specs.Prelude.{◌≡◌, Some, None, IfOk, IfErr, OnOk};
ghost use Rattle.domain.specs.declared.limits.TheConstants.{MOST_GROUPS};
ghost use Rattle.domain.specs.declared.refusal.Refusal.TheVariants.{Order};
ghost use Rattle.keeper.specs.Calls.{fault_of, unopened};
ghost use Rattle.table_keeper.specs.Tells.{told, told_lawful};

use crate::TableKeeper;
use coverage::groups::Groups;
use description::Description;
use domain::change::Change;
use domain::limits::check_room;
use domain::outline::Outline;
use domain::refusal::Refusal;
use keeper::{Keeper, KeeperFault, WrittenOut};

impl TableKeeper {
    /// A keeper that is not opened yet.
    pub fn new() -> TableKeeper
        ensures { told result ≡ unopened }
    {
        TableKeeper { held: None }
    }

    // The description held, once the keeper is opened.
    fn opened(&self) -> Result<&Description, KeeperFault>
        ensures held { IfOk result (λ held. self.now.held ≡ Some held.now) }
        ensures order { IfErr result
            (λ fault. (self.now.held ≡ None) × (fault ≡ fault_of Order)) }
    {
        self.held.as_ref().ok_or(Refusal::Order.into())
    }
}

impl Keeper for TableKeeper {
    ghost told = { told };

    ghost capacity = { λ k. MOST_GROUPS };

    // exactly what the rule gives is told
    ghost keeps = { λ Rule before after r. OnOk r (Rule (told after)) };

    fn open(&mut self, n: u8, scratch: &mut [u8]) -> Result<(), KeeperFault> {
        if self.held.is_some() {
            return Err(Refusal::Order.into());
        }
        let new = Description::new(n)?;
        check_room(n, scratch.len())?;
        self.held = Some(new);
        Ok(())
    }

    fn change(&mut self, change: Change<&[u16]>, scratch: &mut [u8]) -> Result<(), KeeperFault> {
        let after = self.opened()?.changed(change, scratch)?;
        self.held = Some(after);
        Ok(())
    }

    fn is_ground(&self, position: u8) -> Result<bool, KeeperFault> {
        Ok(self.opened()?.is_ground(position)?)
    }

    fn is_free(&self, position: u8) -> Result<bool, KeeperFault> {
        Ok(self.opened()?.is_free(position)?)
    }

    fn is_linear(&self, position: u8) -> Result<bool, KeeperFault> {
        Ok(self.opened()?.is_linear(position)?)
    }

    fn share(&self, p: u8, q: u8) -> Result<bool, KeeperFault> {
        Ok(self.opened()?.share(p, q)?)
    }

    fn write_out(&self, list: &mut [u16]) -> Result<WrittenOut, KeeperFault> {
        let held = self.opened()?;
        let Outline { positions, marks } = held.outline();
        let groups = Groups {
            table: held.table(),
            positions,
        };
        let count = groups.write_core(list)?;
        Ok(WrittenOut { count, marks })
    }

    ghost lawful = { told_lawful };
}
