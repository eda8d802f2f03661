//! The inputs of the node, and its steps.

ghost use Rattle.std.specs.Prelude.{◌≡◌, []};
ghost use Rattle.node_tests.specs.Idle.{idle_input, idle_state, request_of_nothing, silent_letter};

use crate::state::Idle;
use bson_values::Memory;
use cluster_base::NodeId;
use node_traits::{Mail, MailList, Node, Outputs, ReplyList, StepFault};
use outside::log::Log;
use std::alloc::Global;
use std::marker::Sync;
use std::thread::Threads;

/// The count of steps at the last step.
const LAST: u64 = (1 << 56) - 1;

/// The answer to a read of no request, which a catalogue ignores.
#[derive(Clone, Copy, Drop)]
pub struct Silent {
    pub to: NodeId,
}

impl Mail for Silent {
    ghost letter = { silent_letter };

    fn to(&self) -> NodeId {
        self.to
    }

    fn kind(&self) -> &'static str {
        "ReadRows"
    }

    fn copy(&self, _alloc: Global) -> Result<Silent, Memory> {
        Ok(*self)
    }
}

/// The inputs of the node.
#[derive(Drop)]
pub enum IdleInput {
    Client { link: u32, number: i32 },
    Letter(Silent),
    Moment(u64),
    Opened,
}

impl Node for Idle {
    type Input = IdleInput;

    type Mail = Silent;

    type Request = ();

    ghost state = { idle_state };

    ghost steps = { λ node. node.steps };

    ghost meaning = { idle_input };

    ghost asks = { λ _. request_of_nothing };

    fn me(&self) -> NodeId {
        self.me
    }

    fn client(link: u32, number: i32, _request: ()) -> IdleInput {
        IdleInput::Client { link, number }
    }

    fn moment(ms: u64) -> IdleInput {
        IdleInput::Moment(ms)
    }

    fn opened() -> IdleInput {
        IdleInput::Opened
    }

    fn prepare<R: Threads + Sync>(_rt: &R, _alloc: Global, mail: Silent) -> IdleInput {
        IdleInput::Letter(mail)
    }

    fn keep_count(&mut self, before: &Idle) {
        self.steps = before.steps;
    }

    fn step<L: Log>(
        &mut self,
        _log: &mut L,
        input: IdleInput,
    ) -> Result<Outputs<Silent>, StepFault<Silent>> {
        if self.steps >= LAST {
            return Err(StepFault::Steps {
                told: self.nothing(),
            });
        }
        self.steps += 1;
        match input {
            IdleInput::Opened => Ok(self.nothing()),
            _ => Err(StepFault::Memory {
                told: self.nothing(),
            }),
        }
    }
}

impl Idle {
    // Returns no message and no reply.
    fn nothing(&self) -> Outputs<Silent>
        ensures mail { result.mail ≡ [] }
        ensures replies { result.replies ≡ [] }
    {
        Outputs {
            mail: MailList::new(self.alloc),
            replies: ReplyList::new(self.alloc),
        }
    }
}
