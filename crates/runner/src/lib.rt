//! The runner: hands the steps of a sheet to any keeper, one by one, up to the first refusal.
#![tactic(auto)]

mod next;
mod running;
mod serve;
mod state;
mod turn;

pub use running::{WorkLists, run};
