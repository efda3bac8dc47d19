//! Asking and counting, over entries that are all in use and in any order.
ghost use Rattle.std.specs.Prelude.{◌↔◌, IsTrue};
ghost use Rattle.roll.specs.Rolls.{Holds, Counts};

use crate::key::Keyed;

/// Whether some entry has the key.
pub fn holds_key<T: Keyed>(entries: &[T], key: &T::Key) -> bool
    ensures { IsTrue result ↔ Holds T.Keyed.key key.now entries.now }
{
    entries.iter().any(|entry| entry.has_key(key))
}

/// How many entries have the key.
pub fn count_key<T: Keyed>(entries: &[T], key: &T::Key) -> usize
    ensures { Counts T.Keyed.key key.now entries.now result }
{
    let mut count = 0;
    for entry in entries {
        if entry.has_key(key) {
            count += 1;
        }
    }
    count
}
