//! What may go to other threads.

use any_node::AnyNode;
use opmsg_frames::Request;
use protocol_model::{Input, Message};

// Of what may go to another thread.
fn sends<T: Send>() {}

/// A node may go to another thread.
pub fn node_sends() {
    sends::<AnyNode>();
}

/// A message may go to another thread.
pub fn message_sends() {
    sends::<Message>();
}

/// An input may go to another thread.
pub fn input_sends() {
    sends::<Input>();
}

/// A request may go to another thread.
pub fn request_sends() {
    sends::<Request>();
}
