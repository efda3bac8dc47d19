//! The calls that change what a list keeper tells. The list goes to functions that write it, each of which
//! takes and gives back that the rules of an opened keeper hold.
ghost use Rattle.std.specs.Option.{ForSome, ForNone};
ghost use Rattle.std.specs.Prelude.{◌≡◌, ◌≤◌, length};
ghost use Rattle.domain.specs.Changes.{lent_change};
ghost use Rattle.domain.specs.Requests.{bytes_for};
ghost use Rattle.domain.specs.Tables.{told_with};
ghost use Rattle.keeper.specs.Calls.{ChangesBy, Opens};
ghost use Rattle.list_keeper.specs.Keeping.{Kept};
ghost use Rattle.list_keeper.specs.Tells.{tells, told_by};

use crate::head::Head;
use crate::store::store;
use domain::change::Change;
use domain::refusal::Refusal;
use keeper::KeeperFault;
use rules::lent::{change_table, load_table, open_table};

pub(crate) fn open_list(
    head: &mut Option<Head>,
    list: &mut [u16],
    n: u8,
    scratch: &mut [u8],
) -> Result<(), KeeperFault>
    requires { ForSome head.old (λ h. Kept h list.old) }
    ensures kept { ForSome head.new (λ h. Kept h list.new) }
    ensures untouched { ForNone head.new (list.new ≡ list.old) }
    ensures opens { Opens (length list.old) n (length scratch.old) (told_by head.old list.old)
        (told_by head.new list.new) result }
{
    if head.is_some() {
        return Err(Refusal::Order.into());
    }
    let outline = open_table(scratch, n)?;
    store(head, list, scratch, outline)
}

// Loads the groups into the scratch as a table, works the change on it and keeps the core of what it leaves.
pub(crate) fn change_list(
    head: &mut Option<Head>,
    list: &mut [u16],
    scratch: &mut [u8],
    change: Change<&[u16]>,
) -> Result<(), KeeperFault>
    requires { ForSome head.old (λ h. Kept h list.old) }
    ensures kept { ForSome head.new (λ h. Kept h list.new) }
    ensures untouched { ForNone head.new (list.new ≡ list.old) }
    ensures changes { ChangesBy (lent_change change.entry) (length list.old) (length scratch.old)
        (told_by head.old list.old) (told_by head.new list.new) result }
{
    let opened = head.ok_or(Refusal::Order)?;
    load(opened, list, scratch);
    let left = change_table(scratch, opened.outline, change)?;
    store(head, list, scratch, left)
}

// Puts the groups of the list into the table, which then tells what the keeper tells, if it is long enough.
fn load(head: Head, list: &[u16], table: &mut [u8])
    requires { Kept head list.now }
    ensures { bytes_for head.outline.positions ≤ length table.old → told_with head.outline table.new
        ≡ tells head list.now }
{
    load_table(table, &list[..head.count]);
}
