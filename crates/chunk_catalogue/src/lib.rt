//! The catalogue of collections: the table of each, and the changes that make the next one (MongoDB manual, "Sharded Cluster Balancer",
//! chunk migration procedure, and "Split Chunks in a Sharded Cluster").
#![tactic(auto)]

mod catalogue;
mod change;
mod fault;

pub use catalogue::Catalogue;
pub use change::{Change, ChangeFields, CommitWords};
pub use fault::CatFault;
