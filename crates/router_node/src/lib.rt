//! A router: it takes the requests of clients, sends requests to the catalogue and the shards, and replies to the clients.
#![tactic(auto)]

mod all_next;
mod begin;
mod clients;
mod cursors;
mod learns;
mod mail;
mod moments;
mod node;
mod plans;
mod reads;
mod refusals;
mod restored;
mod splits;
mod step;
mod step_plan;
mod steps;
mod take;
mod telling;
mod writes;

pub use node::RouterNode;
