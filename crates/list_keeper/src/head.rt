//! What an opened list keeper knows beside its list.
use domain::outline::Outline;

#[derive(Clone, Copy)]
pub(crate) struct Head {
    pub(crate) outline: Outline,
    // how many entries of the list are core groups
    pub(crate) count: usize,
}
