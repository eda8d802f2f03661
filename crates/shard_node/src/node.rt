//! The node.

ghost use Rattle.std.specs.Prelude.{◌≡◌, ◌≤◌};
ghost use Rattle.node_traits.specs.States.{new_shard, shard_state};
ghost use Rattle.shard_store.specs.Stores.{last_of, shard_of};

use cluster_base::{NodeId, Time};
use node_traits::{Node, NotTaken, Outputs, StepCount, StepFault, append_records};
use opmsg_frames::Request;
use outside::log::Log;
use protocol_model::{Asked, Input, Message, missed};
use route_cache::RouteCache;
use shard_requests::requested;
use shard_store::ShardStore;
use std::alloc::Global;
use std::marker::Sync;
use std::thread::Threads;

/// A shard.
#[derive(Drop)]
pub struct ShardNode {
    pub(crate) alloc: Global,
    pub(crate) me: NodeId,
    pub(crate) steps: StepCount,
    pub(crate) time: Time,
    pub(crate) tables: RouteCache,
    pub(crate) store: ShardStore,
    // The greatest time of its ceilings, or 0.
    pub(crate) ceiling: Time,
    // The requests that wait for a table, in order.
    pub(crate) parked: Vec<Message>,
    // No entry is later than the node.
    ghost entered: { last_of store ≤ time.0 },
    // The entries are its own.
    ghost own: { shard_of store ≡ me.0 },
}

impl ShardNode {
    ghost use Rattle.node_traits.specs.Faults.{cause_of};
    ghost use Rattle.node_traits.specs.Letters as letters;
    ghost use Rattle.protocol_model.specs.Missed.{IsAsked, TellsMissed};
    ghost use Rattle.shard_node.specs.State.{state_of};

    /// Returns the shard with this number, with no record.
    pub fn open(alloc: Global, me: NodeId) -> ShardNode
        ensures state { state_of result ≡ shard_state (new_shard me.0) }
        ensures steps { result.steps ≡ 0 }
    {
        ShardNode {
            alloc,
            me,
            steps: StepCount::new(),
            time: Time(0),
            tables: RouteCache::new(alloc),
            store: ShardStore::new(alloc, me),
            ceiling: Time(0),
            parked: Vec::new(alloc),
        }
    }

    // Returns what is told of a step that was not taken, after so many steps, for this cause.
    fn missed(&self, steps: u64, asked: Option<Asked>, cause: NotTaken) -> StepFault<Message>
        ensures cause { cause_of result ≡ cause }
        ensures told { (i : letters.Input) → IsAsked (state_of self.now) i asked → TellsMissed (state_of self.now) i steps result }
    {
        missed(self.alloc, self.me, self.time, steps, asked, cause)
    }

    /// Returns how many steps it has taken.
    pub fn counted(&self) -> &StepCount
        ensures { result.now ≡ self.now.steps }
    {
        &self.steps
    }

    /// Goes on with the count of a node that stopped.
    pub fn count_from(&mut self, before: &StepCount)
        ensures state { state_of self.new ≡ state_of self.old }
        ensures steps { self.new.steps ≡ before.now }
    {
        self.steps.keep(before);
    }
}

impl Node for ShardNode {
    ghost use Rattle.protocol_model.specs.Inputs.{input_of};
    ghost use Rattle.protocol_model.specs.Requests.{request_of};
    ghost use Rattle.shard_node.specs.State.{state_of};

    type Input = Input;

    type Mail = Message;

    type Request = Request;

    ghost state = { state_of };

    ghost steps = { λ node. node.steps };

    ghost meaning = { input_of };

    ghost asks = { request_of };

    fn me(&self) -> NodeId {
        self.me
    }

    fn client(link: u32, number: i32, request: Request) -> Input {
        Input::Client {
            link,
            number,
            request,
        }
    }

    fn moment(ms: u64) -> Input {
        Input::Moment(ms)
    }

    fn opened() -> Input {
        Input::Opened
    }

    fn prepare<R: Threads + Sync>(_rt: &R, _alloc: Global, mail: Message) -> Input {
        Input::Deliver(mail)
    }

    fn keep_count(&mut self, before: &ShardNode) {
        self.count_from(before.counted());
    }

    fn step<L: Log>(
        &mut self,
        log: &mut L,
        input: Input,
    ) -> Result<Outputs<Message>, StepFault<Message>> {
        let steps = self.steps.get();
        let asked = requested(self.me, &input);
        match self.steps.count(self.time, input.time()) {
            Ok(()) => match self.plan(input) {
                Ok(plan) => match append_records(log, &plan.records) {
                    Ok(()) => Ok(self.take(plan)),
                    Err(cause) => Err(without(plan, self.missed(steps, asked, cause))),
                },
                Err(_) => Err(self.missed(steps, asked, NotTaken::Memory)),
            },
            Err(cause) => Err(without(input, self.missed(steps, asked, cause))),
        }
    }
}

// Lets a value go that is not used, and returns the other.
fn without<T: Drop, R>(_value: T, other: R) -> R
    ensures { result ≡ other }
{
    other
}
