//! The entries of a list of groups.
ghost use Rattle.std.specs.Prelude.{◌≡◌, ℕ, ◌≤◌, ◌++◌, length, take, drop, Contains, ◌↔◌, IsTrue, slice_index};
ghost use Rattle.domain.specs.Groups.{Share};

use domain::mask::has_both;

// Does some entry hold both positions?
pub(crate) fn some_holds(groups: &[u16], p: u8, q: u8) -> bool
    ensures { IsTrue result ↔ Share (Contains groups.now) p q }
{
    groups.iter().any(|g| has_both(*g, p, q))
}

// Makes the entries from one place on 0.
pub(crate) fn clear(list: &mut [u16], from: usize)
    requires { from ≤ length list.old }
    ensures front { take from list.new ≡ take from list.old }
    ensures zero { (i : ℕ) → from ≤ i → slice_index list.new i ≡ 0 }
{
    list[from..].fill(0);
}

// Copies the groups to the start of a list that is long enough.
pub(crate) fn copy_to(groups: &[u16], list: &mut [u16])
    requires { length groups.now ≤ length list.old }
    ensures { list.new ≡ groups.now ++ drop (length groups.now) list.old }
{
    list[..groups.len()].copy_from_slice(groups);
}
