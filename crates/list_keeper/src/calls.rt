//! The calls of a list keeper.
ghost use Rattle.std.specs.Prelude.{◌≡◌, length, take, Some, None, IfOk, IfErr};
ghost use Rattle.domain.specs.declared.refusal.Refusal.TheVariants.{Order};
ghost use Rattle.keeper.specs.Calls.{fault_of, unopened};
ghost use Rattle.list_keeper.specs.Keeping.{Kept};
ghost use Rattle.list_keeper.specs.ListKeepers.{told, told_lawful, capacity_of, IsOver, KeepsList};

use crate::ListKeeper;
use crate::change::{change_list, open_list};
use crate::entries::{copy_to, some_holds};
use crate::head::Head;
use domain::change::Change;
use domain::limits::check_position;
use domain::refusal::Refusal;
use keeper::{Keeper, KeeperFault, WrittenOut};

impl<'a> ListKeeper<'a> {
    /// A keeper over a list, not opened yet. The list stays as it is.
    pub fn new(list: &'a mut [u16]) -> ListKeeper<'a>
        ensures closed { told result ≡ unopened }
        ensures over { IsOver result list.entry }
    {
        ListKeeper { head: None, list }
    }

    // What it knows, once it is opened.
    fn opened(&self) -> Result<Head, KeeperFault>
        ensures head { IfOk result (λ h. self.now.head ≡ Some h) }
        ensures kept { IfOk result (λ h. Kept h self.now.list.now) }
        ensures order { IfErr result (λ fault. (self.now.head ≡ None) × (fault ≡ fault_of Order)) }
    {
        self.head.ok_or(Refusal::Order.into())
    }

    // The core groups, at the start of the list. The head is what `opened` gave.
    fn groups(&self, head: Head) -> &[u16]
        requires { self.now.head ≡ Some head }
        ensures groups { result.now ≡ take head.count self.now.list.now }
        ensures count { length result.now ≡ head.count }
    {
        &self.list[..head.count]
    }
}

impl Keeper for ListKeeper<'_> {
    ghost told = { told };

    ghost capacity = { capacity_of };

    ghost keeps = { λ rule before after r. KeepsList before after };

    fn open(&mut self, n: u8, scratch: &mut [u8]) -> Result<(), KeeperFault> {
        let ListKeeper { head, list } = self;
        open_list(head, list, n, scratch)
    }

    fn change(&mut self, change: Change<&[u16]>, scratch: &mut [u8]) -> Result<(), KeeperFault> {
        let ListKeeper { head, list } = self;
        change_list(head, list, scratch, change)
    }

    fn is_ground(&self, position: u8) -> Result<bool, KeeperFault> {
        let head = self.opened()?;
        check_position(head.outline.positions, position)?;
        Ok(!some_holds(self.groups(head), position, position))
    }

    fn is_free(&self, position: u8) -> Result<bool, KeeperFault> {
        Ok(self.opened()?.outline.is_free(position)?)
    }

    fn is_linear(&self, position: u8) -> Result<bool, KeeperFault> {
        Ok(self.opened()?.outline.is_linear(position)?)
    }

    fn share(&self, p: u8, q: u8) -> Result<bool, KeeperFault> {
        let head = self.opened()?;
        check_position(head.outline.positions, p)?;
        check_position(head.outline.positions, q)?;
        Ok(some_holds(self.groups(head), p, q))
    }

    fn write_out(&self, list: &mut [u16]) -> Result<WrittenOut, KeeperFault> {
        let head = self.opened()?;
        if list.len() < head.count {
            return Err(Refusal::Room.into());
        }
        copy_to(self.groups(head), list);
        Ok(WrittenOut {
            count: head.count,
            marks: head.outline.marks,
        })
    }

    ghost lawful = { told_lawful };
}
