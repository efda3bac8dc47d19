//! A description as it is handed over.
use crate::marks::Marks;

/// The marks and the groups of a description. `G` carries the groups, ascending: a slice that is lent, or a
/// place on a sheet.
#[derive(Clone, Copy, PartialEq, Eq, Debug)]
pub struct Listing<G> {
    /// what is known of the positions
    pub marks: Marks,
    /// what carries the groups
    pub groups: G,
}
