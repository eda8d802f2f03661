//! The nodes of a cluster as one type.
#![tactic(auto)]

ghost use Rattle.std.specs.Prelude.{◌≡◌};
ghost use Rattle.protocol_model.specs.Inputs.{input_of};
ghost use Rattle.protocol_model.specs.Requests.{request_of};

use cluster_base::NodeId;
use config_node::ConfigNode;
use node_traits::{Node, Outputs, StepCount, StepFault};
use opmsg_frames::Request;
use outside::log::Log;
use protocol_model::{Input, Message};
use router_node::RouterNode;
use shard_node::ShardNode;
use std::alloc::Global;
use std::marker::Sync;
use std::thread::Threads;

/// A node of any kind.
#[derive(Drop)]
pub enum AnyNode {
    /// The catalogue.
    Catalogue(ConfigNode),
    /// A shard.
    Shard(ShardNode),
    /// A router.
    Router(RouterNode),
}

impl AnyNode {
    ghost use Rattle.any_node.specs.Kinds.{steps_of};

    // Returns how many steps it has taken.
    fn counted(&self) -> &StepCount
        ensures { result.now ≡ steps_of self.now }
    {
        match self {
            AnyNode::Catalogue(node) => node.counted(),
            AnyNode::Shard(node) => node.counted(),
            AnyNode::Router(node) => node.counted(),
        }
    }
}

impl Node for AnyNode {
    ghost use Rattle.any_node.specs.Kinds.{state_of, steps_of};

    type Input = Input;

    type Mail = Message;

    type Request = Request;

    ghost state = { state_of };

    ghost steps = { steps_of };

    ghost meaning = { input_of };

    ghost asks = { request_of };

    fn me(&self) -> NodeId {
        match self {
            AnyNode::Catalogue(node) => node.me(),
            AnyNode::Shard(node) => node.me(),
            AnyNode::Router(node) => node.me(),
        }
    }

    fn client(link: u32, number: i32, request: Request) -> Input {
        Input::Client {
            link,
            number,
            request,
        }
    }

    fn moment(ms: u64) -> Input {
        Input::Moment(ms)
    }

    fn opened() -> Input {
        Input::Opened
    }

    fn prepare<R: Threads + Sync>(_rt: &R, _alloc: Global, mail: Message) -> Input {
        Input::Deliver(mail)
    }

    fn keep_count(&mut self, before: &AnyNode) {
        let count = before.counted();
        match self {
            AnyNode::Catalogue(node) => node.count_from(count),
            AnyNode::Shard(node) => node.count_from(count),
            AnyNode::Router(node) => node.count_from(count),
        }
    }

    fn step<L: Log>(
        &mut self,
        log: &mut L,
        input: Input,
    ) -> Result<Outputs<Message>, StepFault<Message>> {
        match self {
            AnyNode::Catalogue(node) => node.step(log, input),
            AnyNode::Shard(node) => node.step(log, input),
            AnyNode::Router(node) => node.step(log, input),
        }
    }
}
