//! The plans of requests.

ghost use Rattle.std.specs.Prelude.{◌≡◌, IfOk, Ok, max};
ghost use Rattle.std.specs.Option.{option_map, unwrap_or};
ghost use Rattle.command_model.specs.Command.{command_in, time_limit};
ghost use Rattle.command_words.specs.Commands.{command_view, reading_view};
ghost use Rattle.command_model.specs.CommandSizes.{IsSmallCommand};
ghost use Rattle.base_model.specs.Identities as identities;
ghost use Rattle.node_model.specs.RouterRequests as requested;
ghost use Rattle.router_requests.specs.Works.{telling_view};
ghost use Rattle.opmsg_frames.specs.RequestMeanings.{form_view};
ghost use Rattle.opmsg_model.specs.Requests as wire;
ghost use Rattle.protocol_model.specs.Requests.{body_of};
ghost use Rattle.router_replies.specs.Bodies.{IsTakenBody};
ghost use Rattle.router_replies.specs.Plans.{plan_view};
ghost use Rattle.router_node.specs.RouterStates.{router_of};
ghost use Rattle.router_node.specs.Rows.{started};

use crate::node::RouterNode;
use bson_values::Memory;
use cluster_base::Time;
use command_replies::Answer;
use command_words::{Command, CommandFault, Reading, time_limit};
use opmsg_frames::{Body, Form};
use router_replies::{
    RequestPlan, is_taken, needs_collection, needs_read, plan_split, plan_write, telling_of,
};
use router_requests::{Parts, Telling};

/// The plan of a request, and its time limit in milliseconds, 0 where it has none.
#[derive(Drop)]
pub(crate) struct TimedPlan {
    pub(crate) limit: u64,
    pub(crate) plan: RequestPlan,
}

impl RouterNode {
    // Returns the time of a read that names none: the router's, or the time to be reached where that is greater.
    fn time_reached(&self, after: Option<Time>) -> Time
        ensures { result.0 ≡ max self.now.time.0 (unwrap_or (option_map (λ t. t.0) after) 0) }
    {
        match after {
            Some(after) => self.time.max(after),
            None => self.time,
        }
    }

    // Returns the plan of a read: of the time that it names, or else of the router's. Returns `Memory` if memory runs out.
    fn plan_read(&self, reading: Reading, telling: Telling) -> Result<RequestPlan, Memory>
        ensures { (id : identities.RequestId) → IfOk result (λ plan. plan_view id plan ≡ requested.plan_read (started (router_of self.now)) (reading_view reading)
            (telling_view telling)) }
    {
        let Reading {
            namespace,
            pipeline,
            at,
            after,
        } = reading;
        let parts = Parts::of(self.alloc, pipeline)?;
        match at {
            Some(at) => Ok(needs_read(namespace, true, at, parts, telling)),
            None => {
                let at = self.time_reached(after);
                Ok(needs_read(namespace, false, at, parts, telling))
            }
        }
    }

    // Returns the plan of a command, or `Memory` if memory runs out.
    fn plan_command(&self, silent: bool, command: Command) -> Result<RequestPlan, Memory>
        requires { IsSmallCommand (command_view command) }
        ensures { (id : identities.RequestId) → IfOk result (λ plan. plan_view id plan
            ≡ requested.plan_of (started (router_of self.now)) id silent (Ok (command_view command))) }
    {
        match command {
            Command::Hello => Ok(RequestPlan::AtOnce(Answer::Hello {
                moment: self.moment,
            })),
            Command::Legacy(legacy) => Ok(RequestPlan::AtOnce(Answer::Legacy {
                moment: self.moment,
                hello_ok: legacy.shows_hello_ok,
            })),
            Command::Ping | Command::EndSessions => Ok(RequestPlan::AtOnce(Answer::Done)),
            Command::Write(write) => plan_write(self.alloc, write),
            Command::Find(find) => {
                let telling = telling_of(&find.batches, silent);
                self.plan_read(find.reading, telling)
            }
            Command::Count(reading) => self.plan_read(reading, Telling::Number),
            Command::GetMore(more) => Ok(RequestPlan::NeedsBatch(more)),
            Command::KillCursors(kill) => Ok(RequestPlan::NeedsEnd(kill)),
            Command::ShardCollection(namespace) => Ok(needs_collection(namespace)),
            Command::Split(split) => Ok(plan_split(split)),
        }
    }

    // Returns the plan of a request with this body, or `Memory` if memory runs out.
    fn plan_taken(&self, sent: Form, silent: bool, body: Body) -> Result<RequestPlan, Memory>
        requires { IsTakenBody body }
        ensures { (id : identities.RequestId) → IfOk result (λ plan. plan_view id plan
            ≡ requested.plan_of (started (router_of self.now)) id silent (command_in (form_view sent) (body_of body))) }
    {
        match Command::take_body(self.alloc, sent, body) {
            Ok(command) => self.plan_command(silent, command),
            Err(CommandFault::Refused(refusal)) => Ok(RequestPlan::AtOnce(Answer::Refused(
                refusal,
            ))),
            Err(CommandFault::Memory) => Err(Memory),
        }
    }

    // Returns the plan of a request with this body, and its time limit. Returns `Memory` if memory runs out.
    pub(crate) fn plan_of(&self, sent: Form, silent: bool, body: Body) -> Result<TimedPlan, Memory>
        ensures plan { (id : identities.RequestId) → IfOk result (λ timed. plan_view id timed.plan
            ≡ requested.plan_of (started (router_of self.now)) id silent (command_in (form_view sent) (body_of body))) }
        ensures limit { (request : wire.Request) → request.body ≡ body_of body → IfOk result (λ timed. time_limit request ≡ timed.limit) }
    {
        if !is_taken(&body) {
            // A framer returns no such request.
            return Err(Memory);
        }
        let limit = time_limit(&body);
        let plan = self.plan_taken(sent, silent, body)?;
        Ok(TimedPlan { limit, plan })
    }
}
