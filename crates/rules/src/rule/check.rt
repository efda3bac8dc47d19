//! What each change refuses, in the order of its tests.
ghost use Rattle.std.specs.Prelude.{◌≡◌, ◌^◌, ◌<◌, ◌≤◌};
ghost use Rattle.domain.specs.Changes.{lent_listing};
ghost use Rattle.domain.specs.Joining.{LawfulListing};
ghost use Rattle.domain.specs.Refusals.{first_of};
ghost use Rattle.domain.specs.Requests.{open_tests, bind_tests, join_tests, forget_tests, reaches, ascend, held_by, ill_marks, ill_term, bytes_for, Gives};
ghost use Rattle.domain.specs.declared.limits.TheConstants.{MOST_POSITIONS};
ghost use Rattle.rules.specs.Signs.{IsBindable};

use crate::groups::all;
use domain::limits::{check_count, check_position, check_room};
use domain::listing::Listing;
use domain::mask::{single, within, without};
use domain::refusal::Refusal;
use domain::term::Term;

// How many positions there are, and how many bytes the table has.
#[derive(Clone, Copy)]
pub(crate) struct Limits {
    positions: u8,
    bytes: usize,
    ghost few: { positions ≤ MOST_POSITIONS },
}

impl Limits {
    // Refuses a number of positions that no description has.
    pub(crate) fn of(positions: u8, bytes: usize) -> Result<Limits, Refusal>
        ensures { Gives (first_of (open_tests positions)) result
            (λ l. (l.positions ≡ positions) × (l.bytes ≡ bytes) × (0 < positions)) }
    {
        check_count(positions)?;
        Ok(Limits { positions, bytes })
    }

    pub(crate) fn check_bind(self, position: u8, term: Term) -> Result<(), Refusal>
        ensures { Gives (first_of (bind_tests self.positions position term self.bytes)) result
            (λ u. IsBindable self.positions position term
            × (bytes_for self.positions ≤ self.bytes)) }
    {
        check_position(self.positions, position)?;
        if self.exceeded_by(term.held) || self.exceeded_by(term.repeated) {
            return Err(Refusal::Position);
        }
        if is_ill(term) {
            return Err(Refusal::Masks);
        }
        if term.bare && term.held == single(position) {
            return Err(Refusal::Itself);
        }
        check_room(self.positions, self.bytes)
    }

    pub(crate) fn check_join(self, other: Listing<&[u16]>) -> Result<(), Refusal>
        ensures { Gives
            (first_of (join_tests self.positions (lent_listing other.entry) self.bytes)) result
            (λ u. LawfulListing self.positions (lent_listing other.entry)
            × (bytes_for self.positions ≤ self.bytes)) }
    {
        if !self.hold(other.groups) {
            return Err(Refusal::Groups);
        }
        if self.are_ill(other) {
            return Err(Refusal::Masks);
        }
        check_room(self.positions, self.bytes)
    }

    pub(crate) fn check_forget(self, mask: u16) -> Result<(), Refusal>
        ensures { Gives (first_of (forget_tests self.positions mask self.bytes)) result
            (λ u. (mask < 2 ^ self.positions) × (bytes_for self.positions ≤ self.bytes)) }
    {
        if self.exceeded_by(mask) {
            return Err(Refusal::Position);
        }
        check_room(self.positions, self.bytes)
    }

    // Whether the mask has a position that there is not.
    fn exceeded_by(self, mask: u16) -> bool
        ensures { result ≡ reaches self.positions mask }
    {
        mask >= 1 << self.positions
    }

    // Whether the groups ascend, from above 0, and are masks of so many positions.
    fn hold(self, groups: &[u16]) -> bool
        ensures { result ≡ ascend self.positions 0 groups.now }
    {
        let mut last = 0;
        for g in groups {
            if *g <= last || self.exceeded_by(*g) {
                return false;
            }
            last = *g;
        }
        true
    }

    // Whether the marks are none that a description with these groups can have.
    fn are_ill(self, other: Listing<&[u16]>) -> bool
        ensures { result
            ≡ ill_marks self.positions other.entry.marks (held_by other.entry.groups.now) }
    {
        let Listing { marks, groups } = other;
        let held = held_by(groups);
        let bare = without(all(self.positions), held);
        let ranged = self.exceeded_by(marks.free) || self.exceeded_by(marks.linear);
        let lawful = within(marks.free, marks.linear) && within(bare, marks.linear);
        ranged || !(lawful && within(marks.free, held))
    }
}

// Whether the masks are none that a term can have.
fn is_ill(term: Term) -> bool
    ensures { result ≡ ill_term term }
{
    let bare_ill = term.bare && (term.held.count_ones() != 1 || term.repeated != 0);
    !within(term.repeated, term.held) || bare_ill
}

// All positions that the groups hold.
fn held_by(groups: &[u16]) -> u16
    ensures { result ≡ held_by groups.now }
{
    groups.iter().fold(0, |held, g| held | *g)
}
