//! The groups that a bind makes, mask by mask: whether u is one of them.
ghost use Rattle.std.specs.Prelude.{◌↔◌, IsTrue};
ghost use Rattle.domain.specs.Binding.{Made, NewGroup};
ghost use Rattle.domain.specs.Groups.{Closure, Extended, Paired, Shared, Side};
ghost use Rattle.domain.specs.Tables.{TableGroup};

use crate::groups::Groups;
use domain::case::Case;
use domain::mask::meets;

// What decides which groups a bind makes: the masks of its two sides, the position's own and what the term
// holds, and the case that applies.
#[derive(Clone, Copy)]
pub(crate) struct BindCase {
    pub(crate) own: u16,
    pub(crate) held: u16,
    pub(crate) case: Case,
}

impl Groups<'_> {
    // Whether u is a group after the bind. What is made meets both sides; the rest meets neither.
    pub(crate) fn becomes_group(self, bind: BindCase, u: u16) -> bool
        ensures { IsTrue result
            ↔ NewGroup (TableGroup self.entry.positions self.entry.table.now)
            bind.own bind.held bind.case u }
    {
        match (meets(u, bind.own), meets(u, bind.held)) {
            (true, true) => self.is_made(bind, u),
            (false, false) => self.is_group(u),
            _ => false,
        }
    }

    // Whether u is one of the groups that the case makes.
    fn is_made(self, bind: BindCase, u: u16) -> bool
        ensures { IsTrue result
            ↔ Made (TableGroup self.entry.positions self.entry.table.now)
            bind.own bind.held bind.case u }
    {
        let BindCase { own, held, case } = bind;
        match case {
            Case::Free => self.filled_both(own, held, 0, u),
            Case::BothLinear => self.filled_both(own, held, self.hull(own, held, u), u),
            Case::PositionLinear => self.closed_with_one(own, held, u),
            Case::TermLinear => self.closed_with_one(held, own, u),
            Case::Neither => self.both_closed(own, held, u),
        }
    }

    // Whether u is united of groups that meet a and of one that meets b, with shared ones beside it.
    fn closed_with_one(self, a: u16, b: u16, u: u16) -> bool
        ensures { IsTrue result
            ↔ Paired (Closure (Side (TableGroup self.entry.positions self.entry.table.now) a))
            (Extended (Side (TableGroup self.entry.positions self.entry.table.now) b)
            (Shared (TableGroup self.entry.positions self.entry.table.now) a b)) u }
    {
        let united = self.hull(a, a, u);
        if united == 0 {
            return false;
        }
        self.filled(b, united, u)
    }

    // Whether u is united of groups that meet a and of groups that meet b.
    fn both_closed(self, a: u16, b: u16, u: u16) -> bool
        ensures { IsTrue result
            ↔ Paired (Closure (Side (TableGroup self.entry.positions self.entry.table.now) a))
            (Closure (Side (TableGroup self.entry.positions self.entry.table.now) b)) u }
    {
        let left = self.hull(a, a, u);
        let right = self.hull(b, b, u);
        if left == 0 || right == 0 {
            return false;
        }
        left | right == u
    }
}
