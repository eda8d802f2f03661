//! Every run of the nodes makes one history.
#![tactic(auto)]

mod laws;

pub use laws::{run_keeps_changes, run_makes_one_history};
