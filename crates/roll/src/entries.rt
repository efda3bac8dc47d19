//! The roll, and what is asked of it.
ghost use Rattle.std.specs.Prelude.{◌≡◌, ◌↔◌, ◌≤◌, length, IsTrue, Contains};
ghost use Rattle.roll.specs.Rolls.{Adds, Appends, Counts, Holds, IsInOrder, used_after};

use crate::insertion::place_of;
use crate::key::{Keyed, Ranked};
use crate::not_added::NotAdded;
use crate::search::{count_key, holds_key};

/// An ordered list over lent memory. The entries in use stand at the start of the slice, in the order of their
/// keys, and those behind them are spare.
#[derive(Drop)]
pub struct Roll<'a, T> {
    entries: &'a mut [T],
    used: usize,
    ghost within: { used ≤ length entries.now },
}

impl<'a, T> Roll<'a, T> {
    ghost use Rattle.roll.specs.Views.{in_use, loan_of, slots, used_in};

    /// The empty roll over a slice that is lent to it.
    pub fn over(entries: &'a mut [T]) -> Roll<'a, T>
        ensures empty { used_in result ≡ 0 }
        ensures lent { loan_of result ≡ entries.entry.ghost_name }
        ensures same { slots result ≡ entries.old }
    {
        Roll { entries, used: 0 }
    }

    /// How many entries are in use.
    pub fn len(&self) -> usize
        ensures { result ≡ used_in self.now }
    {
        self.used
    }

    /// How many entries there are, in use or spare.
    pub fn capacity(&self) -> usize
        ensures { result ≡ length (slots self.now) }
    {
        self.entries.len()
    }

    /// The entries in use, in their order.
    pub fn in_use(&self) -> &[T]
        ensures { result.now ≡ in_use self.now }
    {
        &self.entries[0..self.used]
    }
}

impl<T: Keyed> Roll<'_, T> {
    ghost use Rattle.roll.specs.Views.{in_use};

    /// Whether some entry in use has the key.
    pub fn holds(&self, key: &T::Key) -> bool
        ensures { IsTrue result ↔ Holds T.Keyed.key key.now (in_use self.now) }
    {
        holds_key(self.in_use(), key)
    }

    /// How many entries in use have the key.
    pub fn count(&self, key: &T::Key) -> usize
        ensures { Counts T.Keyed.key key.now (in_use self.now) result }
    {
        count_key(self.in_use(), key)
    }
}

impl<T: Keyed + Copy> Roll<'_, T>
where
    T::Key: Ranked,
{
    ghost use Rattle.roll.specs.Views.{in_use, loan_of, slots, used_in};

    /// Adds an entry in its place, unless its key is held or no entry is spare. A roll in order stays in order,
    /// no entry in use is lost, and an entry above all others goes behind them.
    pub fn add(&mut self, entry: T) -> Result<(), NotAdded>
        ensures adds { Adds T.Keyed.key T.Key.Ranked.rank entry (used_in self.old)
            (slots self.old) (slots self.new) result }
        ensures counted { used_in self.new ≡ used_after (used_in self.old) result }
        ensures ordered { IsInOrder T.Keyed.key T.Key.Ranked.rank (in_use self.old) →
            IsInOrder T.Keyed.key T.Key.Ranked.rank (in_use self.new) }
        ensures kept { (e : T) → Contains (in_use self.old) e → Contains (in_use self.new) e }
        ensures appended { Appends T.Keyed.key T.Key.Ranked.rank entry (used_in self.old)
            (slots self.old) (slots self.new) result }
        ensures lent { loan_of self.new ≡ loan_of self.old }
    {
        let key = entry.key();
        if self.holds(&key) {
            return Err(NotAdded::Held);
        }
        if self.used == self.entries.len() {
            return Err(NotAdded::Full);
        }
        let place = place_of(self.in_use(), key.rank());
        let Roll { entries, used } = self;
        entries.copy_within(place..*used, place + 1);
        entries[place] = entry;
        *used += 1;
        Ok(())
    }
}
