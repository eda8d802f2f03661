//! The top call of the cluster: it takes the bytes of connections, or of a script, and returns bytes.
#![tactic(auto)]

mod opener;
mod service;
mod threads;
mod top;

pub use cluster_service::{Command, RunEnd, Server, ServerEnd, Status, node_count, read_command};
pub use outside::exchange::{Exchange, LinkEnd, Spoken};
pub use service::run_nodes;
pub use threads::serve_nodes;
pub use top::{Ended, run};
