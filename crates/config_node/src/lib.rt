//! The catalogue: the node that knows which shard has which keys of each collection.
#![tactic(auto)]

mod asks;
mod keys;
mod node;
mod plan;
mod restored;
mod state;

pub use state::ConfigNode;
