//! The core of a keeper's description.
ghost use Rattle.agreement.specs.Laws.{WriteOutIsLeast};
ghost use Rattle.keeper.specs.Calls.{Writes};

use keeper::{Keeper, KeeperFault, WrittenOut};

/// Writes the core at the start of a list. Of all lists that cover what the keeper's reckoned description
/// covers, it is the least.
pub fn write_least<K: Keeper>(keeper: &K, list: &mut [u16]) -> Result<WrittenOut, KeeperFault>
    ensures writes { Writes (K.Keeper.told keeper.now) list.old list.new result }
    ensures least { WriteOutIsLeast (K.Keeper.capacity keeper.now) (K.Keeper.told keeper.now)
        list.old list.new result }
{
    keeper.write_out(list)
}
