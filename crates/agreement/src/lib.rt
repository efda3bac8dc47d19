//! What holds of whole runs, over keepers of any build.
#![tactic(auto)]

pub mod call;
pub mod compare;
pub mod session;
pub mod write_out;
