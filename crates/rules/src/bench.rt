//! A lent table with what is known beside it, to be read or to be worked on.
ghost use Rattle.std.specs.Prelude.{◌≡◌, ◌≤◌, length};
ghost use Rattle.domain.specs.Requests.{bytes_for};
ghost use Rattle.domain.specs.declared.limits.TheConstants.{MOST_POSITIONS};

use crate::groups::Groups;
use domain::marks::Marks;
use domain::outline::Outline;

// A lent table and the marks beside it, to be read.
#[derive(Clone, Copy)]
pub(crate) struct View<'a> {
    pub(crate) groups: Groups<'a>,
    pub(crate) marks: Marks,
}

// A lent table that a rule is worked on in place, with room for all masks of its positions. Each method
// that writes says that the table is still the one lent.
#[derive(Drop)]
pub(crate) struct Bench<'a> {
    pub(crate) table: &'a mut [u8],
    pub(crate) outline: Outline,
    ghost few: { outline.positions ≤ MOST_POSITIONS },
    ghost room: { bytes_for outline.positions ≤ length table.now },
}

impl Bench<'_> {
    // The table as it stands.
    pub(crate) fn view(&self) -> View<'_>
        ensures table { result.groups.table.now ≡ self.now.table.now }
        ensures positions { result.groups.positions ≡ self.now.outline.positions }
        ensures marks { result.marks ≡ self.now.outline.marks }
    {
        View {
            groups: Groups {
                table: self.table,
                positions: self.outline.positions,
            },
            marks: self.outline.marks,
        }
    }
}
