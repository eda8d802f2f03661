//! Servers and their clients as rows of data: what a line of a row says, links whose clients send when it is their turn, and whether any server that is given
//! the row's devices ends as the row says.
#![tactic(auto)]

mod client;
mod link;
mod outcome;
mod pattern;
mod row;
mod servers;
mod turns;

pub use link::{TurnAcceptor, TurnLink};
pub use row::Row;
pub use servers::{Served, Server, Servers};
pub use turns::Turns;
