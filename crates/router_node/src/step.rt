//! Steps of the router.

ghost use Rattle.std.specs.Prelude.{◌≡◌};
ghost use Rattle.node_model.specs.Letters as letters;
ghost use Rattle.node_traits.specs.Faults.{cause_of};
ghost use Rattle.router_node.specs.RouterStates.{state_of};
ghost use Rattle.protocol_model.specs.Inputs.{input_of};
ghost use Rattle.protocol_model.specs.Missed.{TellsMissed};
ghost use Rattle.protocol_model.specs.Requests.{request_of};

use crate::node::RouterNode;
use cluster_base::NodeId;
use node_traits::{Node, NotTaken, Outputs, StepFault, append_records};
use opmsg_frames::Request;
use outside::log::Log;
use protocol_model::{Input, Message, missed};
use std::alloc::Global;
use std::marker::Sync;
use std::thread::Threads;

impl Node for RouterNode {
    type Input = Input;

    type Mail = Message;

    type Request = Request;

    ghost state = { state_of };

    ghost steps = { λ node. node.steps };

    ghost meaning = { input_of };

    ghost asks = { request_of };

    fn me(&self) -> NodeId {
        self.me
    }

    fn client(link: u32, number: i32, request: Request) -> Input {
        Input::Client {
            link,
            number,
            request,
        }
    }

    fn moment(ms: u64) -> Input {
        Input::Moment(ms)
    }

    fn opened() -> Input {
        Input::Opened
    }

    fn prepare<R: Threads + Sync>(_rt: &R, _alloc: Global, mail: Message) -> Input {
        Input::Deliver(mail)
    }

    fn keep_count(&mut self, before: &RouterNode) {
        self.count_from(before.counted());
    }

    fn step<L: Log>(
        &mut self,
        log: &mut L,
        input: Input,
    ) -> Result<Outputs<Message>, StepFault<Message>> {
        let steps = self.steps.get();
        match self.steps.count(self.time, input.time()) {
            Ok(()) => match self.plan(input) {
                Ok(plan) => match append_records(log, &plan.records) {
                    Ok(()) => Ok(self.take(plan)),
                    Err(cause) => Err(without(plan, self.missed(steps, cause))),
                },
                Err(_) => Err(self.missed(steps, NotTaken::Memory)),
            },
            Err(cause) => Err(without(input, self.missed(steps, cause))),
        }
    }
}

impl RouterNode {
    // Returns what is told of a step that was not taken, after so many steps, for this cause: nothing, as nothing is requested of a router by a node.
    fn missed(&self, steps: u64, cause: NotTaken) -> StepFault<Message>
        ensures cause { cause_of result ≡ cause }
        ensures told { (i : letters.Input) → TellsMissed (state_of self.now) i steps result }
    {
        missed(self.alloc, self.me, self.time, steps, None, cause)
    }
}

// Lets a value go that is not used, and returns the other.
fn without<T: Drop, R>(_value: T, other: R) -> R
    ensures { result ≡ other }
{
    other
}
