//! One connection, a script, or many connections on threads are served by nodes of any kind, each with its journal on a disk.
#![tactic(auto)]

mod arguments;
mod disks;
mod drive;
mod journals;
pub mod laws;
mod options;
mod seats;
mod service;
mod status;
mod threads;

pub use arguments::{Command, Server, node_count, read_command};
pub use disks::{AllUnopened, Opened, open_all};
pub use journals::close_all;
pub use service::{RunEnd, serve, unserved};
pub use status::Status;
pub use threads::{ServerEnd, not_served, serve_links};
