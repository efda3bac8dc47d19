//! A forget, worked in place on a lent table.
ghost use Rattle.std.specs.Prelude.{◌≡◌, ℕ, ◌^◌, ◌<◌, ◌↔◌, IsTrue};
ghost use Rattle.domain.specs.Forgetting.{Forgotten, Left, Supplied};
ghost use Rattle.domain.specs.Tables.{TableGroup, holds_bit, told_with};
ghost use Rattle.rules.specs.Views.{SameBeside, told_on};

use crate::bench::Bench;
use crate::groups::Groups;
use domain::marks::Marks;
use domain::mask::meets;
use domain::outline::Outline;
use domain::subsets::Subsets;
use domain::table;

impl Bench<'_> {
    pub(crate) fn forgotten(&mut self, mask: u16) -> Outline
        requires { mask < 2 ^ self.old.outline.positions }
        ensures gives { Forgotten (told_on self.old) mask (told_with result self.new.table.now) }
        ensures beside { SameBeside self.old.outline.positions self.old.table.now
            self.new.table.now }
        ensures lent { self.new.table.ghost_name ≡ self.old.table.ghost_name }
    {
        let Outline { positions, marks } = self.outline;
        self.strip(mask);
        Outline {
            positions,
            marks: Marks {
                free: marks.free | mask,
                linear: marks.linear | mask,
            },
        }
    }

    // Writes the bit of every mask that can be a group. The test of a mask reads only masks around it, none
    // of which is a smaller number, so from the smallest mask upwards it reads what is not yet written.
    fn strip(&mut self, mask: u16)
        ensures made { (u : ℕ) → 0 < u → u < 2 ^ self.old.outline.positions
            → (IsTrue (holds_bit self.new.table.now u)
            ↔ Left (TableGroup self.old.outline.positions self.old.table.now) mask u) }
        ensures beside { SameBeside self.old.outline.positions self.old.table.now
            self.new.table.now }
        ensures lent { self.new.table.ghost_name ≡ self.old.table.ghost_name }
    {
        let positions = self.outline.positions;
        let table = &mut *self.table;
        for u in 1..1u16 << positions {
            let on = Groups { table, positions }.is_left(mask, u);
            table::put(table, u, on);
        }
    }
}

impl Groups<'_> {
    // Whether u is a group after the forget: a forgotten position alone, or what a group leaves.
    fn is_left(self, mask: u16, u: u16) -> bool
        requires { 0 < u }
        ensures { IsTrue result
            ↔ Left (TableGroup self.entry.positions self.entry.table.now) mask u }
    {
        if meets(u, mask) {
            return u.count_ones() == 1;
        }
        self.is_supplied(mask, u)
    }

    // Whether u and some positions of the mask are a group.
    fn is_supplied(self, mask: u16, u: u16) -> bool
        ensures { IsTrue result
            ↔ Supplied (TableGroup self.entry.positions self.entry.table.now) mask u }
    {
        self.is_group(u) || Subsets::of(mask).any(|part| self.is_group(u | part))
    }
}
