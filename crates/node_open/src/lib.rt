//! Nodes that are opened on the records of their journals.
#![tactic(auto)]

mod nodes;
mod open;

pub use journal_replay::OpenFault;
pub use nodes::{open_node, open_nodes};
pub use open::{open_catalogue, open_router, open_shard};
