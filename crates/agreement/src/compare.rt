//! Comparing two keepers, of one build or of two.
ghost use Rattle.std.specs.Prelude.{◌≡◌};
ghost use Rattle.agreement.specs.Comparing.{Compared};
ghost use Rattle.agreement.specs.Laws.{AlikeAreNotToldApart, MeansAlike};

use keeper::{Keeper, KeeperFault};

/// Whether two keepers tell the same marks and cover the same pairs, by the cores that they write into two
/// lists. Keepers of equal capacity and number of positions whose reckoned descriptions are alike cannot be
/// told apart by any further calls, and all others of these can.
pub fn are_alike<A: Keeper, B: Keeper>(
    a: &A,
    b: &B,
    first: &mut [u16],
    second: &mut [u16],
) -> Result<bool, KeeperFault>
    ensures compared { Compared (A.Keeper.told a.now) (B.Keeper.told b.now) first.old first.new
        second.old second.new result }
    ensures means { A.Keeper.capacity a.now ≡ B.Keeper.capacity b.now
        → MeansAlike (A.Keeper.capacity a.now) (A.Keeper.told a.now) (B.Keeper.told b.now) result }
    ensures not_told_apart { A.Keeper.capacity a.now ≡ B.Keeper.capacity b.now
        → AlikeAreNotToldApart (A.Keeper.capacity a.now) (A.Keeper.told a.now) (B.Keeper.told b.now) }
{
    let one = a.write_out(first)?;
    let two = b.write_out(second)?;
    Ok(one == two && first[..one.count] == second[..two.count])
}
