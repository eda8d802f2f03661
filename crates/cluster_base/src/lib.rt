//! Terms that every part of the cluster shares: times and nodes, sessions and statements, the names of
//! namespaces, and the errors that a reply may have.
#![tactic(auto)]

mod code;
mod identity;
mod namespace;
mod time;

pub use code::Code;
pub use identity::{NodeId, RequestId, Session, Stmt};
pub use namespace::{NameFault, Namespace, is_reserved_database};
pub use time::{Time, moment_time, retained};
