//! Sheets: byte strings that hold a list of steps. What a step, the mark of a step and a fault is.
#![tactic(auto)]

mod fault;
mod kind;
mod mark;
mod shown;
mod steps;

pub use fault::{ReaderFault, Refused, RunnerFault, SheetFault};
pub use kind::StepKind;
pub use mark::StepMark;
pub use steps::{LONGEST_SHEET, Span, Step};
