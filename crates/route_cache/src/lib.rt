//! The tables that a node knows: for each collection the longest that it received, found by a hash of the collection's name.
#![tactic(auto)]

mod cache;
mod entry;
mod index;

pub use cache::RouteCache;
pub use index::TableIndex;
