//! Nodes, what they take and their messages may go to other threads.
#![tactic(auto)]

mod laws;

pub use laws::{input_sends, message_sends, node_sends, request_sends};
