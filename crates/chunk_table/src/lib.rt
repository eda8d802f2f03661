//! Which shard has which keys of a collection, now and at a time, and whether what a router sent along fits (MongoDB manual, "Data
//! Partitioning with Chunks" and "Sharded Cluster Query Routing").
#![tactic(auto)]

mod changed;
mod changes;
mod chunk;
mod span_targets;
mod table;
mod verdict;
mod version;

pub use chunk::{Chunk, Owned, OwnedList};
pub use table::Table;
pub use verdict::{Sent, Verdict, check};
pub use version::Version;
