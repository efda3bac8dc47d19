//! The keeper: anything that tells a number of positions (0 until it is opened), a description and a
//! capacity, and answers the calls below.
ghost use Rattle.std.specs.Prelude.{◌≡◌, ℕ, ◌<◌, length, Result};
ghost use Rattle.domain.specs.Changes.{Makes, lent_change, lent_listing};
ghost use Rattle.domain.specs.Groups.{IsGround, Share};
ghost use Rattle.domain.specs.Opening.{New};
ghost use Rattle.domain.specs.Told.{Told, Group, IsFree, IsLinear, Lawful};
ghost use Rattle.keeper.specs.Calls.{Opens, ChangesBy, Writes, Answers, ask_refusal, pair_refusal};
ghost use Rattle.keeper.specs.declared.fault.KeeperFault.{KeeperFault};

use crate::fault::KeeperFault;
use crate::write_out::WrittenOut;
use domain::change::Change;
use domain::listing::Listing;
use domain::term::Term;

/// A holder of a description. Open and the calls that change it borrow scratch, whose contents afterwards are
/// free. The contracts name, for all arguments, the answer or the first refusal of the keeper's tests; they
/// hold the description up to "alike", and each build says by `keeps` what it promises beyond.
pub trait Keeper {
    // what the keeper tells of its description
    ghost told: { Self → Told };

    // how many core groups it has room for
    ghost capacity: { Self → ℕ };

    // what this build promises beside, of a call that is to make a description of which `Rule` holds
    ghost keeps: { (Told → Type 0) → Self → Self → Result (Unit {0}) KeeperFault → Type 0 };

    /// Makes the new description of n positions.
    fn open(&mut self, n: u8, scratch: &mut [u8]) -> Result<(), KeeperFault>
        ensures opens { Opens (capacity self.old) n (length scratch.old) (told self.old)
            (told self.new) result }
        ensures keeps { keeps (New n) self.old self.new result }
        ensures same_capacity { capacity self.new ≡ capacity self.old };

    /// Changes the description by the call that is given as a value.
    fn change(&mut self, change: Change<&[u16]>, scratch: &mut [u8]) -> Result<(), KeeperFault>
        ensures changes { ChangesBy (lent_change change.entry) (capacity self.old)
            (length scratch.old)
            (told self.old) (told self.new) result }
        ensures keeps { keeps (Makes (lent_change change.entry) (told self.old)) self.old self.new
            result }
        ensures same_capacity { capacity self.new ≡ capacity self.old };

    /// Binds a position to a term.
    final fn bind(
        &mut self,
        position: u8,
        term: Term,
        scratch: &mut [u8],
    ) -> Result<(), KeeperFault>
        ensures binds { ChangesBy (Change.Bind position term) (capacity self.old)
            (length scratch.old)
            (told self.old) (told self.new) result }
        ensures keeps { keeps (Makes (Change.Bind position term) (told self.old)) self.old self.new
            result }
        ensures same_capacity { capacity self.new ≡ capacity self.old }
    {
        self.change(Change::Bind { position, term }, scratch)
    }

    /// Joins the description with another.
    final fn join(&mut self, other: Listing<&[u16]>, scratch: &mut [u8]) -> Result<(), KeeperFault>
        ensures joins { ChangesBy (Change.Join (lent_listing other.entry)) (capacity self.old)
            (length scratch.old)
            (told self.old) (told self.new) result }
        ensures keeps { keeps (Makes (Change.Join (lent_listing other.entry)) (told self.old))
            self.old self.new result }
        ensures same_capacity { capacity self.new ≡ capacity self.old }
    {
        self.change(Change::Join(other), scratch)
    }

    /// Forgets what is known of the positions of a mask.
    final fn forget(&mut self, mask: u16, scratch: &mut [u8]) -> Result<(), KeeperFault>
        ensures forgets { ChangesBy (Change.Forget mask) (capacity self.old) (length scratch.old)
            (told self.old) (told self.new) result }
        ensures keeps { keeps (Makes (Change.Forget mask) (told self.old)) self.old self.new result }
        ensures same_capacity { capacity self.new ≡ capacity self.old }
    {
        self.change(Change::Forget(mask), scratch)
    }

    /// Does no group hold the position?
    fn is_ground(&self, position: u8) -> Result<bool, KeeperFault>
        ensures { Answers (ask_refusal (told self.now) position)
            (IsGround (told self.now).n (Group (told self.now)) position) result };

    /// Is the position free?
    fn is_free(&self, position: u8) -> Result<bool, KeeperFault>
        ensures { Answers (ask_refusal (told self.now) position) (IsFree (told self.now) position)
            result };

    /// Is the position linear?
    fn is_linear(&self, position: u8) -> Result<bool, KeeperFault>
        ensures { Answers (ask_refusal (told self.now) position) (IsLinear (told self.now) position)
            result };

    /// Does one group hold both positions?
    fn share(&self, p: u8, q: u8) -> Result<bool, KeeperFault>
        ensures { Answers (pair_refusal (told self.now) p q) (Share (Group (told self.now)) p q)
            result };

    /// Puts the core at the start of a list, whose other entries stay.
    fn write_out(&self, list: &mut [u16]) -> Result<WrittenOut, KeeperFault>
        ensures { Writes (told self.now) list.old list.new result };

    // an opened keeper tells a lawful description
    ghost lawful: { (k : Self) → 0 < (told k).n → Lawful (told k) };
}
