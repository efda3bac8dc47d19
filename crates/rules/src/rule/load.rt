//! Groups put into a table: those of the new description, of a list, and of a join.
ghost use Rattle.std.specs.Prelude.{◌≡◌, ℕ, ◌/◌, ◌^◌, ◌<◌, ◌≤◌, true, ◌↔◌, ◌⊎◌, length, Contains, IsTrue};
ghost use Rattle.domain.specs.Changes.{lent_listing};
ghost use Rattle.domain.specs.Joining.{Joined};
ghost use Rattle.domain.specs.Opening.{Single};
ghost use Rattle.domain.specs.Requests.{bytes_for};
ghost use Rattle.domain.specs.Tables.{holds_bit, told_with};
ghost use Rattle.domain.specs.declared.limits.TheConstants.{MOST_POSITIONS};
ghost use Rattle.rules.specs.Views.{SameBeside, told_on};

use crate::bench::Bench;
use domain::listing::Listing;
use domain::marks::Marks;
use domain::mask::single;
use domain::outline::Outline;
use domain::table;

// Puts the groups beside those that the table has. A group past the table's end is left out.
pub(crate) fn put_groups(table: &mut [u8], groups: &[u16])
    ensures put { (g : ℕ) → g / 8 < length table.old → Contains groups.now g
        → holds_bit table.new g ≡ true }
    ensures grown { (g : ℕ) → holds_bit table.old g ≡ true → holds_bit table.new g ≡ true }
    ensures only { (g : ℕ) → holds_bit table.new g ≡ true
        → (holds_bit table.old g ≡ true) ⊎ Contains groups.now g }
{
    for g in groups {
        table::put(table, *g, true);
    }
}

// Makes the groups those of the new description: each position by itself.
pub(crate) fn put_singles(table: &mut [u8], positions: u8)
    requires few { positions ≤ MOST_POSITIONS }
    requires room { bytes_for positions ≤ length table.old }
    ensures { (g : ℕ) → (IsTrue (holds_bit table.new g) ↔ Single positions g) }
{
    table.fill(0);
    for p in 0..positions {
        table::put(table, single(p), true);
    }
}

impl Bench<'_> {
    // A join, worked in place.
    pub(crate) fn joined(&mut self, other: Listing<&[u16]>) -> Outline
        requires { (g : ℕ) → Contains other.groups.now g
            → (0 < g) × (g < 2 ^ self.old.outline.positions) }
        ensures gives { Joined (told_on self.old) (lent_listing other.entry)
            (told_with result self.new.table.now) }
        ensures beside { SameBeside self.old.outline.positions self.old.table.now
            self.new.table.now }
        ensures lent { self.new.table.ghost_name ≡ self.old.table.ghost_name }
    {
        put_groups(self.table, other.groups);
        let Outline { positions, marks } = self.outline;
        Outline {
            positions,
            marks: Marks {
                free: marks.free & other.marks.free,
                linear: marks.linear & other.marks.linear,
            },
        }
    }
}
