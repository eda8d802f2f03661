//! A shard: the node that stores documents, and serves statements and reads on them.
#![tactic(auto)]

mod node;
mod plan;
mod reads;
mod restored;
mod steps;
mod tables;
mod writes;

pub use node::ShardNode;
