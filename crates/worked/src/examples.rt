//! The worked examples, and what they say of every keeper.
ghost use Rattle.keeper.specs.Calls.{Writes};
ghost use Rattle.worked.specs.Rows.{AllWorked};
ghost use Rattle.worked.specs.Table.{table};
ghost use Rattle.worked.specs.Writing.{WritesRows};

use keeper::{Keeper, KeeperFault, WrittenOut};

/// Writes the core at the start of a list. Every row of the table is right: the rules reckon the groups, the
/// core and the marks that it writes out, and every keeper with the row's room answers its calls as it says. So a keeper that was
/// given the calls of a row writes out what the row says.
pub fn write_example<K: Keeper>(keeper: &K, list: &mut [u16]) -> Result<WrittenOut, KeeperFault>
    ensures right { AllWorked table }
    ensures writes { Writes (K.Keeper.told keeper.now) list.old list.new result }
    ensures rows { WritesRows table (K.Keeper.capacity keeper.now) (K.Keeper.told keeper.now)
        list.old list.new result }
{
    keeper.write_out(list)
}
