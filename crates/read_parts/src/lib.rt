//! The parts of reads that go to several shards: to which shards a read is sent by a table, and what each returned (MongoDB manual, "Sharded Cluster Query
//! Routing", targeted operations).
#![tactic(auto)]

mod gathering;
mod parts;
mod targets;

pub use gathering::gather;
pub use parts::{Part, Target, has_part, have_all_come, is_target};
pub use targets::{is_owned, targets_of};
