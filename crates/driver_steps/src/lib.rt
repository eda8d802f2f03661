//! Nodes with their logs, driven on one thread: steps, messages and replies, as drivers share them.
#![tactic(auto)]

mod deliveries;
mod network;
mod notes;
mod opens;
mod restarts;
mod rounds;
mod seat;
mod steps;

pub use deliveries::{deliver, settle};
pub use network::Network;
pub use notes::{note_cut, note_disks};
pub use opens::Opens;
pub use restarts::restart;
pub use rounds::{ask, give_moment, give_moments, open_all};
pub use seat::Seat;
pub use steps::{happen, step_node, step_seat};
