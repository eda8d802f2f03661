//! The messages of a connection (MongoDB Wire Protocol, "OP_MSG", "OP_QUERY", "OP_REPLY"): requests from bytes that come
//! in any pieces, and replies to bytes.
#![tactic(auto)]

mod documents;
mod fault;
mod framer;
pub mod laws;
mod lists;
mod message;
mod outline;
mod reply;
mod request;
mod sections;

pub use fault::{FrameFault, Malformed};
pub use framer::Framer;
pub use lists::{DocList, Sequence, SequenceList};
pub use outline::{Outline, outline_of};
pub use reply::write_reply;
pub use request::{Body, Form, Request};
