//! The marks of positions.
ghost use Rattle.std.specs.Prelude.{◌↔◌, IsTrue};
ghost use Rattle.domain.specs.Masks.{In};

use crate::mask::has;

/// What is known of each position beside the groups: which are free, and which linear.
#[derive(Clone, Copy, PartialEq, Eq, Debug)]
pub struct Marks {
    /// the mask of the free positions
    pub free: u16,
    /// the mask of the linear ones
    pub linear: u16,
}

impl Marks {
    /// Whether the position is free. None of 16 or more is.
    pub fn is_free(self, p: u8) -> bool
        ensures { IsTrue result ↔ In p self.free }
    {
        has(self.free, p)
    }

    /// Whether the position is linear. None of 16 or more is.
    pub fn is_linear(self, p: u8) -> bool
        ensures { IsTrue result ↔ In p self.linear }
    {
        has(self.linear, p)
    }
}
