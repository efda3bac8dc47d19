//! Where an entry is added.
ghost use Rattle.std.specs.Prelude.{◌≡◌, ◌≤◌, length};
ghost use Rattle.roll.specs.Rolls.{place};

use crate::key::{Keyed, Ranked};

// How many entries stand before the first with a larger rank, of entries in any order.
pub(crate) fn place_of<T: Keyed>(entries: &[T], rank: u64) -> usize
where
    T::Key: Ranked,
    ensures within { result ≤ length entries.now }
    ensures first { result ≡ place (λ e. T.Key.Ranked.rank (T.Keyed.key e)) rank entries.now }
{
    entries
        .iter()
        .position(|entry| rank < entry.key().rank())
        .unwrap_or(entries.len())
}
