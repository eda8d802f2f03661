//! The inputs of a node.

ghost use Rattle.std.specs.Prelude.{◌≡◌};
ghost use Rattle.node_model.specs.Lacks.{time_in};
ghost use Rattle.protocol_model.specs.Inputs.{input_of};

use crate::message::Message;
use cluster_base::Time;
use opmsg_frames::Request;

/// The input of a node in one step.
#[derive(Drop)]
pub enum Input {
    /// A request arrives on a link; the number is that of its reply.
    Client {
        link: u32,
        number: i32,
        request: Request,
    },
    /// A message is delivered.
    Deliver(Message),
    /// A moment, in milliseconds since 1970.
    Moment(u64),
    /// The node was opened.
    Opened,
}

impl Input {
    /// Returns the time of a message, or else 0.
    pub fn time(&self) -> Time
        ensures { result.0 ≡ time_in (input_of self.now) }
    {
        match self {
            Input::Deliver(message) => message.time,
            Input::Client { .. } | Input::Moment(_) | Input::Opened => Time(0),
        }
    }
}
