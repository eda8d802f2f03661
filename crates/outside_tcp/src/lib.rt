//! Links of clients over TCP, on this machine's own address.
#![tactic(auto)]

mod link;
mod port;

pub use link::TcpLink;
pub use port::TcpPort;
