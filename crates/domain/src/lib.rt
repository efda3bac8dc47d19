//! What is said of record positions: masks, groups in a bit table, marks, terms, the calls that change a
//! description, and the table of refusals.
#![tactic(auto)]

pub mod case;
pub mod change;
pub mod limits;
pub mod listing;
pub mod marks;
pub mod mask;
pub mod outline;
pub mod refusal;
pub mod subsets;
pub mod table;
pub mod term;
