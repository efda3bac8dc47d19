//! What a bind asks of its two sides, the position and the term, and the case that the answers choose.
ghost use Rattle.std.specs.Prelude.{◌<◌, ◌↔◌, ◌⊎◌, IsTrue};
ghost use Rattle.domain.specs.Binding.{FreeTerm, LinearTerm, Once};
ghost use Rattle.domain.specs.Groups.{IsGround};
ghost use Rattle.domain.specs.Told.{Group};
ghost use Rattle.rules.specs.Signs.{IsBindable, Chosen, Seen};
ghost use Rattle.rules.specs.Views.{told_by};

use crate::bench::View;
use domain::case::Case;
use domain::mask::{has, meets, single, without};
use domain::term::Term;

// What the rule asks of a side.
#[derive(Clone, Copy)]
pub(crate) struct Sign {
    pub(crate) free: bool,
    pub(crate) linear: bool,
}

// The answers for both sides.
#[derive(Clone, Copy)]
pub(crate) struct Signs {
    pub(crate) position: Sign,
    pub(crate) term: Sign,
}

impl Signs {
    // The first case that fits.
    pub(crate) fn chosen(self) -> Case
        ensures { Chosen self result }
    {
        if self.position.free || self.term.free {
            return Case::Free;
        }
        match (self.position.linear, self.term.linear) {
            (true, true) => Case::BothLinear,
            (true, false) => Case::PositionLinear,
            (false, true) => Case::TermLinear,
            (false, false) => Case::Neither,
        }
    }
}

// A bind that its tests let pass, with the table that it is asked of.
#[derive(Clone, Copy)]
pub(crate) struct AskedBind<'a> {
    pub(crate) view: View<'a>,
    pub(crate) position: u8,
    pub(crate) term: Term,
    ghost bindable: { IsBindable view.groups.positions position term },
}

impl AskedBind<'_> {
    // What the rule asks of the position and of the term.
    pub(crate) fn signs(self) -> Signs
        ensures { Seen (told_by self.entry.view) self.entry.position self.entry.term result }
    {
        let marks = self.view.marks;
        Signs {
            position: Sign {
                free: marks.is_free(self.position),
                linear: marks.is_linear(self.position),
            },
            term: Sign {
                free: self.is_term_free(),
                linear: self.is_term_linear(),
            },
        }
    }

    // A bare term holds one position.
    fn is_term_free(self) -> bool
        ensures { IsTrue result ↔ FreeTerm (told_by self.entry.view) self.entry.term }
    {
        self.term.bare && meets(self.term.held, self.view.marks.free)
    }

    fn is_term_linear(self) -> bool
        ensures { IsTrue result ↔ LinearTerm (told_by self.entry.view) self.entry.term }
    {
        let AskedBind { view, term, .. } = self;
        (0..view.groups.positions).all(|p| !has(term.held, p) || view.is_linear_at(term, p))
    }
}

impl View<'_> {
    // Whether the position is ground, or linear and held once.
    fn is_linear_at(self, term: Term, p: u8) -> bool
        requires { p < self.groups.positions }
        ensures { IsTrue result
            ↔ (IsGround self.entry.groups.positions (Group (told_by self.entry)) p
            ⊎ Once (told_by self.entry) term p) }
    {
        self.groups.reach(single(p)) == 0 || self.is_once(term, p)
    }

    // Whether the position is linear, held once, and shares with no other position of the term.
    fn is_once(self, term: Term, p: u8) -> bool
        requires { p < 16 }
        ensures { IsTrue result ↔ Once (told_by self.entry) term p }
    {
        if !self.marks.is_linear(p) || has(term.repeated, p) {
            return false;
        }
        let alone = single(p);
        let others = without(self.groups.reach(alone), alone);
        !meets(others, term.held)
    }
}
