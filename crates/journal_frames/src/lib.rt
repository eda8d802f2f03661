//! The journal of a node: a sequence of records on a disk, which is whole after a crash at any moment, with or without the newest. A record is a gate, its
//! length and its bytes; the gate is opened once the rest is durable.
#![tactic(auto)]

mod changes;
mod file;
mod gates;
mod journal;
pub mod laws;
mod records;

pub use journal::{Journal, OpenFault};
