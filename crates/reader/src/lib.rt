//! The reader: from the bytes of a sheet to the head of a record, and from there to its step.
#![tactic(auto)]

mod ask;
mod groups;
mod record;
mod step;
mod term;
#[cfg(test)]
mod tests;

pub use groups::copy_groups;
pub use step::StepRecord;
