//! What is known of a description beside its groups.
ghost use Rattle.std.specs.Prelude.{◌↔◌, IsTrue};
ghost use Rattle.domain.specs.Masks.{In};
ghost use Rattle.domain.specs.Refusals.{first_of};
ghost use Rattle.domain.specs.Requests.{ask_tests, Gives};

use crate::limits::check_position;
use crate::marks::Marks;
use crate::refusal::Refusal;

/// A description without its groups: its number of positions, and their marks.
#[derive(Clone, Copy, PartialEq, Eq, Debug)]
pub struct Outline {
    /// the number of positions
    pub positions: u8,
    /// what is known of each
    pub marks: Marks,
}

impl Outline {
    /// Whether the position is free; one out of range is refused.
    pub fn is_free(self, p: u8) -> Result<bool, Refusal>
        ensures { Gives (first_of (ask_tests self.positions p)) result
            (λ yes. IsTrue yes ↔ In p self.marks.free) }
    {
        check_position(self.positions, p)?;
        Ok(self.marks.is_free(p))
    }

    /// Whether the position is linear; one out of range is refused.
    pub fn is_linear(self, p: u8) -> Result<bool, Refusal>
        ensures { Gives (first_of (ask_tests self.positions p)) result
            (λ yes. IsTrue yes ↔ In p self.marks.linear) }
    {
        check_position(self.positions, p)?;
        Ok(self.marks.is_linear(p))
    }
}
