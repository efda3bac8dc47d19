//! What a write-out of the core answers.
use domain::marks::Marks;

/// How many groups the core has, which stand at the start of the lent list, and the marks.
#[derive(Clone, Copy, PartialEq, Eq, Debug)]
pub struct WrittenOut {
    /// how many groups the core has
    pub count: usize,
    /// what is known of the positions
    pub marks: Marks,
}
