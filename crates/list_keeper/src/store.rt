//! Keeping the core of a table.
ghost use Rattle.std.specs.Option.{ForSome, ForNone};
ghost use Rattle.std.specs.Prelude.{◌≡◌, length};
ghost use Rattle.domain.specs.Tables.{told_with};
ghost use Rattle.domain.specs.Told.{Lawful};
ghost use Rattle.list_keeper.specs.Keeping.{Kept, Stores};
ghost use Rattle.list_keeper.specs.Tells.{told_by};

use crate::entries::clear;
use crate::head::Head;
use coverage::groups::Groups;
use domain::outline::Outline;
use domain::refusal::Refusal;
use keeper::KeeperFault;

// Puts the core of the table into the list, and the outline beside it. Where the core has more groups than the
// list has room for, nothing is changed.
pub(crate) fn store(
    head: &mut Option<Head>,
    list: &mut [u16],
    table: &[u8],
    outline: Outline,
) -> Result<(), KeeperFault>
    requires lawful { Lawful (told_with outline table.now) }
    requires kept { ForSome head.old (λ h. Kept h list.old) }
    ensures kept { ForSome head.new (λ h. Kept h list.new) }
    ensures untouched { ForNone head.new (list.new ≡ list.old) }
    ensures stores { Stores (told_with outline table.now) (length list.old)
        (told_by head.old list.old) (told_by head.new list.new) result }
{
    let groups = Groups {
        table,
        positions: outline.positions,
    };
    let count = groups.write_core(list).map_err(|_| Refusal::Capacity)?;
    clear(list, count);
    *head = Some(Head { outline, count });
    Ok(())
}
