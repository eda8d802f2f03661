//! The plan for an input, and a step that is taken.

use crate::node::RouterNode;
use crate::step_plan::{Change, StepPlan};
use bson_values::Memory;
use cluster_base::{NodeId, Time};
use node_traits::MailList;
use protocol_model::{Body, Input, Message};

impl RouterNode {
    ghost use Rattle.std.specs.Prelude.{◌≡◌, IfOk, OnOk, map};
    ghost use Rattle.node_model.specs.Letters.{Letter, letter_input, opened_input};
    ghost use Rattle.node_model.specs.RouterRequests as requested;
    ghost use Rattle.node_model.specs.States.{router_state};
    ghost use Rattle.node_traits.specs.Effects.{StepPlanned};
    ghost use Rattle.protocol_model.specs.Bodies.{body_view};
    ghost use Rattle.protocol_model.specs.Inputs.{input_of};
    ghost use Rattle.protocol_model.specs.Messages.{letter_of};
    ghost use Rattle.router_node.specs.RouterStates.{router_of};
    ghost use Rattle.router_node.specs.StepPlans.{HasRoomFor, IsHeard, IsPlanned, IsReady, router_then};

    // Returns the plan for a message from a node to this router, at the time that it carries. Returns `Memory` if memory runs out.
    fn plan_body(&self, sender: NodeId, time: Time, body: Body) -> Result<StepPlan, Memory>
        ensures { (m : Letter) → m.sender ≡ sender.0 → m.body ≡ body_view body → time.0 ≡ requested.heard (router_of self.now) m →
            IfOk result (λ p. IsHeard (router_of self.now) m p) }
    {
        match body {
            Body::TableTold(told) => self.plan_table(time, told),
            Body::SplitDone(told) => self.plan_split_done(time, told),
            Body::WriteDone(told) => self.plan_dones(time, &told),
            Body::ReadRows(told) => self.plan_rows(sender, time, told),
            Body::TimeTold(told) => self.plan_time(sender, time, &told),
            Body::Refused(told) => self.plan_refused(sender, time, told),
            Body::TableAsk(_) => Ok(self.late(self.time)),
            Body::SplitAsk(_) => Ok(self.late(self.time)),
            Body::WriteAsk(_) => Ok(self.late(self.time)),
            Body::ReadAsk(_) => Ok(self.late(self.time)),
            Body::HalfAsk(_) => Ok(self.late(self.time)),
            Body::TimeAsk(_) => Ok(self.late(self.time)),
        }
    }

    // Returns the plan for a message, or `Memory` if memory runs out.
    fn plan_message(&self, message: Message) -> Result<StepPlan, Memory>
        ensures { IfOk result (λ p. IsPlanned (router_of self.now) (letter_input (letter_of message)) p) }
    {
        if message.receiver != self.me {
            return Ok(self.late(self.time));
        }
        self.plan_body(message.sender, self.time.max(message.time), message.body)
    }

    // Returns the plan for the opening of the router, or `Memory` if memory runs out.
    fn plan_opened(&self) -> Result<StepPlan, Memory>
        ensures { IfOk result (λ p. IsPlanned (router_of self.now) opened_input p) }
    {
        let mail = MailList::new(self.alloc);
        self.starts(self.time, self.moment, Change::Stays, mail, None)
    }

    // Returns the plan for an input, or `Memory` if memory runs out.
    fn plan_input(&self, input: Input) -> Result<StepPlan, Memory>
        ensures { IfOk result (λ p. IsPlanned (router_of self.now) (input_of input) p) }
    {
        match input {
            Input::Client {
                link,
                number,
                request,
            } => self.plan_client(link, number, request),
            Input::Deliver(message) => self.plan_message(message),
            Input::Moment(moment) => self.plan_moment(moment),
            Input::Opened => self.plan_opened(),
        }
    }

    // Reserves room for what was planned. Returns `Memory` if memory runs out. The router is the same either way.
    fn make_room(&mut self, change: &Change) -> Result<(), Memory>
        ensures room { OnOk result (HasRoomFor self.new change.now) }
        ensures same { router_of self.new ≡ router_of self.old }
        ensures begun { self.new.begun ≡ self.old.begun }
        ensures steps { self.new.steps ≡ self.old.steps }
    {
        match change {
            Change::Stays => {}
            Change::Counts => {}
            Change::Opens(_) => self.requests.reserve()?,
            Change::Closes(_) => {}
            Change::Reaches(..) => {}
            Change::Told(..) => {}
            Change::Gains(count, ..) => self.requests.reserve_part(*count)?,
            Change::Goes(..) => {}
            Change::Learns(..) => self.tables.reserve()?,
            Change::Shelves(_, opened) => self.cursors.make_room(&opened.namespace, opened.time)?,
            Change::Advances(..) => {}
            Change::Ends(_) => {}
        }
        Ok(())
    }

    // Returns the plan for an input, with room for it; nothing else changes. Returns `Memory` if memory runs out.
    pub(crate) fn plan(&mut self, input: Input) -> Result<StepPlan, Memory>
        ensures planned { IfOk result (λ p. StepPlanned (router_state (router_of self.old)) (input_of input) (map letter_of p.mail) p.replies p.records.items
            (router_state (router_then (router_of self.old) p))) }
        ensures ready { IfOk result (λ p. IsReady self.new p) }
        ensures same { router_of self.new ≡ router_of self.old }
        ensures steps { self.new.steps ≡ self.old.steps }
    {
        let plan = self.plan_input(input)?;
        self.make_room(&plan.change)?;
        Ok(plan)
    }
}
