//! What the records of a shard's journal replay to.
#![tactic(auto)]

mod kind;
mod latest;
mod part;
mod same;

pub use part::{ShardPart, ShardParts};
