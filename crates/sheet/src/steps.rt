//! What a sheet holds: its steps, and where on it the groups of a join lie.
ghost use Rattle.std.specs.Prelude.{◌≡◌};
ghost use Rattle.sheet.specs.Steps.{group_count, kind_of};

use crate::kind::StepKind;
use domain::change::Change;
use keeper::Question;

/// No sheet has more bytes.
pub const LONGEST_SHEET: usize = 65_535;

/// Where on a sheet groups lie, two bytes each.
#[derive(Clone, Copy, PartialEq, Eq, Debug)]
pub struct Span {
    /// the byte at which the first one starts
    pub start: usize,
    /// how many there are
    pub count: usize,
}

/// One step of a sheet, read.
#[derive(Clone, Copy, PartialEq, Eq, Debug)]
pub enum Step {
    /// opens the keeper with so many positions
    Open(u8),
    /// changes the description; the groups of a join lie on the sheet
    Change(Change<Span>),
    /// asks a question
    Ask(Question),
    /// ends the sheet
    End,
}

impl Step {
    /// The kind of the step.
    pub fn kind(self) -> StepKind
        ensures { result ≡ kind_of self }
    {
        match self {
            Step::Open(_) => StepKind::Open,
            Step::Change(change) => StepKind::of_change(change),
            Step::Ask(_) => StepKind::Ask,
            Step::End => StepKind::End,
        }
    }

    /// How many groups the step has on its sheet: none, unless it is a join.
    pub fn group_count(self) -> usize
        ensures { result ≡ group_count self }
    {
        match self {
            Step::Change(change) => change.groups().map_or(0, |span| span.count),
            Step::Open(_) | Step::Ask(_) | Step::End => 0,
        }
    }
}
