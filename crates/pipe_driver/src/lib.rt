//! One connection of a cluster on one thread: its requests are served by the nodes, one after another.
#![tactic(auto)]

mod connection;
mod replies;
mod requests;
mod rest;
mod round;
mod status;
mod streams;

pub use connection::{Ending, pipe};
pub use replies::{next_number, replied_after};
pub use status::Status;
pub use streams::{PIECE, new_piece, put_all, take_more};
