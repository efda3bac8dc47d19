//! Sets of positions as masks: position p is the bit p.
ghost use Rattle.domain.specs.Masks.{In, Meets, Loses, is_within, without};
ghost use Rattle.std.specs.Prelude.{◌≡◌, ◌↔◌, ◌^◌, ◌<◌, ◌≤◌, IsTrue};

/// The mask of one position. One of 16 or more is in no mask.
pub fn single(p: u8) -> u16
    ensures inside { p < 16 → result ≡ 2 ^ p }
    ensures past { 16 ≤ p → result ≡ 0 }
{
    if p >= 16 {
        return 0;
    }
    1 << p
}

/// Whether the mask holds the position. None has one of 16 or more.
pub fn has(mask: u16, p: u8) -> bool
    ensures { IsTrue result ↔ In p mask }
{
    if p >= 16 {
        return false;
    }
    (mask >> p) & 1 == 1
}

/// Whether the mask holds both positions, which may be one.
pub fn has_both(mask: u16, p: u8, q: u8) -> bool
    ensures { IsTrue result ↔ (In p mask × In q mask) }
{
    has(mask, p) && has(mask, q)
}

/// Whether the masks have a position in common.
pub fn meets(a: u16, b: u16) -> bool
    ensures { IsTrue result ↔ Meets a b }
{
    a & b != 0
}

/// Whether every position of a is one of b.
pub fn within(a: u16, b: u16) -> bool
    ensures { result ≡ is_within a b }
{
    a & b == a
}

/// The positions of `mask` that are not in `lost`.
pub fn without(mask: u16, lost: u16) -> u16
    ensures { result ≡ without mask lost }
{
    mask ^ (mask & lost)
}

/// The positions of `mask`, without those of `lost` where `drops` says so.
pub fn without_where(mask: u16, lost: u16, drops: bool) -> u16
    ensures { Loses mask lost drops result }
{
    if drops { without(mask, lost) } else { mask }
}
