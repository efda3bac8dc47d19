//! A bind, worked in place on a lent table.
ghost use Rattle.std.specs.Prelude.{◌≡◌, ℕ, ◌^◌, ◌<◌, ◌↔◌, IsTrue};
ghost use Rattle.domain.specs.Binding.{Bound, NewGroup, StaysFree, StaysLinear};
ghost use Rattle.domain.specs.Masks.{In};
ghost use Rattle.domain.specs.Tables.{TableGroup, holds_bit, told_with};
ghost use Rattle.rules.specs.Signs.{IsBindable, Seen};
ghost use Rattle.rules.specs.Views.{SameBeside, told_by, told_on};

use super::made::BindCase;
use super::sides::{AskedBind, Signs};
use crate::bench::Bench;
use crate::groups::Groups;
use domain::marks::Marks;
use domain::mask::{single, without, without_where};
use domain::outline::Outline;
use domain::table;
use domain::term::Term;

impl Bench<'_> {
    // What the rule asks is asked of the old table, and which positions are ground of the new one.
    pub(crate) fn bound(&mut self, position: u8, term: Term) -> Outline
        requires { IsBindable self.old.outline.positions position term }
        ensures gives { Bound (told_on self.old) position term
            (told_with result self.new.table.now) }
        ensures beside { SameBeside self.old.outline.positions self.old.table.now
            self.new.table.now }
        ensures lent { self.new.table.ghost_name ≡ self.old.table.ghost_name }
    {
        let positions = self.outline.positions;
        let asked = AskedBind {
            view: self.view(),
            position,
            term,
        };
        let signs = asked.signs();
        let Marks { free, linear } = asked.kept(signs);
        self.rewrite(BindCase {
            own: single(position),
            held: term.held,
            case: signs.chosen(),
        });
        let ground = self.view().groups.ground_mask();
        Outline {
            positions,
            marks: Marks {
                free,
                linear: linear | free | ground,
            },
        }
    }

    // Writes the bit of every mask that can be a group. The test of a mask reads only its subsets, none of
    // which is a larger number, so from the largest mask downwards it reads what is not yet written.
    fn rewrite(&mut self, bind: BindCase)
        ensures made { (u : ℕ) → 0 < u → u < 2 ^ self.old.outline.positions
            → (IsTrue (holds_bit self.new.table.now u)
            ↔ NewGroup (TableGroup self.old.outline.positions self.old.table.now)
            bind.own bind.held bind.case u) }
        ensures kept { self.new.outline ≡ self.old.outline }
        ensures beside { SameBeside self.old.outline.positions self.old.table.now
            self.new.table.now }
        ensures lent { self.new.table.ghost_name ≡ self.old.table.ghost_name }
    {
        let positions = self.outline.positions;
        let table = &mut *self.table;
        for u in (1..1u16 << positions).rev() {
            let on = Groups { table, positions }.becomes_group(bind, u);
            table::put(table, u, on);
        }
    }
}

impl AskedBind<'_> {
    // The marks that stay. Positions are near a side where one of its groups holds them.
    fn kept(self, signs: Signs) -> Marks
        requires seen { Seen (told_by self.view) self.position self.term signs }
        ensures free { (p : ℕ) → (In p result.free
            ↔ StaysFree (told_by self.entry.view) self.entry.position self.entry.term p) }
        ensures linear { (p : ℕ) → (In p result.linear
            ↔ StaysLinear (told_by self.entry.view) self.entry.position self.entry.term p) }
    {
        let AskedBind {
            view,
            position,
            term,
        } = self;
        let near_position = view.groups.reach(single(position));
        let near_term = view.groups.reach(term.held);
        let far_free = without_where(view.marks.free, near_position, !signs.term.free);
        let free = without_where(far_free, near_term, !signs.position.free);
        let apart = without(view.marks.linear, near_position & near_term);
        let far_linear = without_where(apart, near_position, !signs.term.linear);
        let linear = without_where(far_linear, near_term, !signs.position.linear);
        Marks { free, linear }
    }
}
