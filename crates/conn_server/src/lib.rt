//! Connections of clients, served by nodes on threads.
#![tactic(auto)]

mod desk;
mod entrance;
mod jobs;
mod link;
mod links;
mod opened;
mod server;
mod shared;
mod slots;
mod talk;
mod waiting;
mod workers;

pub use server::{ServeEnd, Served, Unserved, serve};
