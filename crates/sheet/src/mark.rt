//! The marks of steps.
ghost use Rattle.std.specs.Prelude.{◌≡◌};
ghost use Rattle.sheet.specs.Marks.{answer_number, blank_mark};

use crate::kind::StepKind;
use crate::steps::LONGEST_SHEET;
use roll::Keyed;

/// What was done with one step.
#[derive(Clone, Copy, PartialEq, Eq, Debug)]
pub struct StepMark {
    /// the byte at which the step starts
    pub place: u16,
    /// the step's kind
    pub kind: StepKind,
    /// whether the step was accepted, or answered yes
    pub answer: bool,
}

// A mark can hold every place of a sheet, and no place beyond.
const _: () = prove!(LONGEST_SHEET == u16::MAX as usize);

impl StepMark {
    /// A mark to fill a list with.
    pub fn blank() -> StepMark
        ensures { result ≡ blank_mark }
    {
        StepMark {
            place: 0,
            kind: StepKind::End,
            answer: false,
        }
    }

    /// The answer as a number: 1 for yes, 0 for no.
    pub fn number(&self) -> u8
        ensures { result ≡ answer_number self.now.answer }
    {
        u8::from(self.answer)
    }
}

/// A mark is found by its place.
impl Keyed for StepMark {
    type Key = u16;

    ghost key = { λ m. m.place };

    fn key(&self) -> u16 {
        self.place
    }

    fn has_key(&self, wanted: &u16) -> bool {
        self.place == *wanted
    }
}
