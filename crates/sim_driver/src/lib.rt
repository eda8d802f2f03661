//! A script of events for the nodes of a cluster, played on one thread.
#![tactic(auto)]

mod client;
mod deliver;
mod delivered;
mod events;
mod laws;
mod lines;
mod link;
mod messages;
mod play;
mod report;
mod restarts;
mod script;
mod simulation;

pub use laws::{
    restarted_scripts_are_answered, scripts_are_under_way, settled_scripts_are_answered,
};
pub use simulation::simulate;
