//! The bit table of groups: the mask g is bit g % 8 of byte g / 8.
ghost use Rattle.std.specs.Prelude.{◌≡◌, ℕ, ◌/◌, ◌%◌, ◌^◌, ◌<◌, ◌≤◌, ◌≢◌, length, ◌==◌};
ghost use Rattle.domain.specs.Tables.{holds_bit, in_range, is_group};

/// The bit of the mask g; false where the table ends before it.
pub fn holds(table: &[u8], g: u16) -> bool
    ensures { result ≡ holds_bit table.now g }
{
    match table.get(usize::from(g / 8)) {
        Some(byte) => (byte >> (g % 8)) & 1 == 1,
        None => false,
    }
}

/// Whether g is one of the masks that a description of so many positions can have as a group.
pub fn in_range(positions: u8, g: u16) -> bool
    ensures { result ≡ in_range positions g }
{
    if g == 0 {
        return false;
    }
    if positions >= 16 {
        return true;
    }
    g < 1 << positions
}

/// Whether g is one of the groups of a table of so many positions.
pub fn is_group(table: &[u8], positions: u8, g: u16) -> bool
    ensures { result ≡ is_group positions table.now g }
{
    // most masks are no groups, and their bit says so first
    holds(table, g) && in_range(positions, g)
}

/// Sets the bit of the mask g to `on`; where the table ends before it, nothing is written.
pub fn put(table: &mut [u8], g: u16, on: bool)
    ensures at { g / 8 < length table.old → holds_bit table.new g ≡ on }
    ensures others { (h : ℕ) → h ≢ g → holds_bit table.new h ≡ holds_bit table.old h }
    ensures past { length table.old ≤ g / 8 → table.new ≡ table.old }
{
    let place = usize::from(g / 8);
    // put by index (docs/DECISIONS.md)
    if place < table.len() {
        // the cast narrows; it is proved to fit
        table[place] = with_bit(table[place], (g % 8) as u8, on);
    }
}

// The byte with one bit set to `on`.
fn with_bit(byte: u8, place: u8, on: bool) -> u8
    requires { place < 8 }
    ensures at { (result / 2 ^ place % 2 == 1) ≡ on }
    ensures others { (k : ℕ) → k ≢ place → result / 2 ^ k % 2 ≡ byte / 2 ^ k % 2 }
{
    let bit = 1u8 << place;
    if on { byte | bit } else { byte ^ (byte & bit) }
}
