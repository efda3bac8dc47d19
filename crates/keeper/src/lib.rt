//! Keepers: what holds a description and answers questions about it.
#![tactic(auto)]

mod calls;
mod fault;
mod questions;
mod write_out;

pub use calls::Keeper;
pub use fault::KeeperFault;
pub use questions::Question;
pub use write_out::WrittenOut;
