//! What an input comes to, and a step that is taken.

ghost use Rattle.std.specs.Prelude.{◌≡◌, ◌≢◌, ◌≤◌, ◌<◌, [], IfOk, IfSome, None, OnOk, Some, false, map};
ghost use Rattle.chunk_table.specs.Tables.{table_of};
ghost use Rattle.chunk_table.specs.Verdicts.{fits, verdict_of};
ghost use Rattle.node_model.specs.Lacks.{last_time, time_in};
ghost use Rattle.node_traits.specs.Effects.{StepPlanned};
ghost use Rattle.node_traits.specs.Letters.{Letter, letter_input};
ghost use Rattle.node_traits.specs.ShardRows.{Ask, ask_in, heard, was_seen};
ghost use Rattle.node_traits.specs.States.{shard_state};
ghost use Rattle.protocol_model.specs.Bodies.{body_view, table_told_view};
ghost use Rattle.protocol_model.specs.Inputs.{input_of};
ghost use Rattle.protocol_model.specs.Messages.{letter_of};
ghost use Rattle.protocol_model.specs.Refusals.{refused_view};
ghost use Rattle.shard_node.specs.Plans.{Follows, FollowsBy, HasRoomFor, IsPlanned, IsReady, IsStep, after, changed};
ghost use Rattle.shard_node.specs.State.{shard_view, state_of};
ghost use Rattle.shard_requests.specs.Standings.{Stands};
ghost use Rattle.shard_requests.specs.declared.standings.Standing.TheVariants.{Fits, NoAsk, RouterOld, ShardOld};
ghost use Rattle.shard_store.specs.Stores.{entries_of, last_of};

use crate::node::ShardNode;
use crate::plan::{Change, StepPlan};
use bson_values::Memory;
use chunk_table::Version;
use cluster_base::Time;
use node_traits::{Outputs, ReplyList};
use protocol_model::{Body, Input, Message, Refused, TableTold};
use shard_requests::{Standing, keep_others, later, no_table, standing_of};

impl ShardNode {
    // Returns the plan for a first statement that is not new, which is answered so on any table, or `Memory` if memory runs out.
    fn plan_again(&self, time: Time, body: &Body) -> Result<Option<StepPlan>, Memory>
        requires old { (a : Ask) → ask_in (body_view body.now) ≡ Some a →
            verdict_of a.sent self.now.me.0 (table_of a.namespace self.now.tables.tables) ≢ fits }
        ensures planned { (m : Letter) → m.body ≡ body_view body.now → time.0 ≡ heard (shard_view self.now) m →
            IfOk result (λ p. IfSome p (λ p. IsPlanned (shard_view self.now) (letter_input m) p)) }
        ensures unseen { IfOk result (λ p. p ≡ None → was_seen (body_view body.now) (entries_of self.now.store) ≡ false) }
        ensures follows { IfOk result (λ p. IfSome p (λ p. Follows self.now p)) }
    {
        match body {
            Body::WriteAsk(ask) => self.plan_repeat(time, ask),
            Body::ReadAsk(_)
            | Body::TableAsk(_)
            | Body::TableTold(_)
            | Body::SplitAsk(_)
            | Body::SplitDone(_)
            | Body::WriteDone(_)
            | Body::HalfAsk(_)
            | Body::ReadRows(_)
            | Body::Refused(_)
            | Body::TimeAsk(_)
            | Body::TimeTold(_) => Ok(None),
        }
    }

    // Returns the plan for a request that was sent with a later table than the shard knows.
    fn plan_unknown(&self, time: Time, message: Message) -> Result<StepPlan, Memory>
        requires time { time.0 ≡ heard (shard_view self.now) (letter_of message) }
        requires stands { Stands self.now.me.0 self.now.tables.tables ShardOld (letter_of message).body }
        ensures planned { IfOk result (λ p. IsPlanned (shard_view self.now) (letter_input (letter_of message)) p) }
        ensures follows { IfOk result (λ p. Follows self.now p) }
    {
        match self.plan_again(time, &message.body)? {
            Some(plan) => Ok(plan),
            None => self.plan_wait(time, message),
        }
    }

    // Returns the plan for a request that was sent with an older table.
    fn plan_older(&self, time: Time, message: &Message, met: Version) -> Result<StepPlan, Memory>
        requires time { time.0 ≡ heard (shard_view self.now) (letter_of message.now) }
        requires stands { Stands self.now.me.0 self.now.tables.tables (RouterOld met) (letter_of message.now).body }
        ensures planned { IfOk result (λ p. IsPlanned (shard_view self.now) (letter_input (letter_of message.now)) p) }
        ensures follows { IfOk result (λ p. Follows self.now p) }
    {
        match self.plan_again(time, &message.body)? {
            Some(plan) => Ok(plan),
            None => Ok(self.plan_stale(time, message, met)),
        }
    }

    // Returns the plan for a request of documents that was sent with the table that the shard knows.
    fn plan_fitting(&self, time: Time, body: Body) -> Result<StepPlan, Memory>
        requires early { time.0 < last_time }
        requires later { last_of self.now.store ≤ time.0 }
        requires stands { Stands self.now.me.0 self.now.tables.tables Fits (body_view body) }
        ensures planned { (m : Letter) → m.body ≡ body_view body → time.0 ≡ heard (shard_view self.now) m →
            IfOk result (λ p. IsPlanned (shard_view self.now) (letter_input m) p) }
        ensures follows { IfOk result (λ p. Follows self.now p) }
    {
        match body {
            Body::WriteAsk(ask) => self.plan_write(time, ask),
            Body::ReadAsk(ask) => self.plan_read(time, &ask),
            Body::TableAsk(_)
            | Body::TableTold(_)
            | Body::SplitAsk(_)
            | Body::SplitDone(_)
            | Body::WriteDone(_)
            | Body::HalfAsk(_)
            | Body::ReadRows(_)
            | Body::Refused(_)
            | Body::TimeAsk(_)
            | Body::TimeTold(_) => Ok(StepPlan::of_time(self.alloc, time)),
        }
    }

    // Returns the plan for a table that arrives, or for the answer that there is none. Returns `Memory` if memory runs out.
    fn plan_told(&self, time: Time, told: TableTold) -> Result<StepPlan, Memory>
        ensures planned { (m : Letter) → m.body ≡ table_told_view told → time.0 ≡ heard (shard_view self.now) m →
            IfOk result (λ p. IsPlanned (shard_view self.now) (letter_input m) p) }
        ensures follows { IfOk result (λ p. Follows self.now p) }
    {
        let TableTold { table, .. } = told;
        match table {
            Some(table) => self.plan_table(time, table),
            None => Ok(StepPlan::of_time(self.alloc, time)),
        }
    }

    // Returns the plan for the answer to a request of this shard, or of another node, that was not served. Returns `Memory` if memory runs out.
    fn plan_refused(&self, time: Time, answer: Refused) -> Result<StepPlan, Memory>
        ensures planned { (m : Letter) → m.body ≡ refused_view answer → time.0 ≡ heard (shard_view self.now) m →
            IfOk result (λ p. IsPlanned (shard_view self.now) (letter_input m) p) }
        ensures follows { IfOk result (λ p. Follows self.now p) }
    {
        match no_table(answer) {
            Some(missing) => self.plan_no_table(time, missing),
            None => Ok(StepPlan::of_time(self.alloc, self.time)),
        }
    }

    // Returns the plan for a message that requests no documents that depend on a table, or `Memory` if memory runs out.
    fn plan_other(&self, time: Time, body: Body) -> Result<StepPlan, Memory>
        requires stands { Stands self.now.me.0 self.now.tables.tables NoAsk (body_view body) }
        ensures planned { (m : Letter) → m.body ≡ body_view body → time.0 ≡ heard (shard_view self.now) m →
            IfOk result (λ p. IsPlanned (shard_view self.now) (letter_input m) p) }
        ensures follows { IfOk result (λ p. Follows self.now p) }
    {
        match body {
            Body::TableTold(told) => self.plan_told(time, told),
            Body::HalfAsk(ask) => self.plan_rows(time, ask),
            Body::TimeAsk(ask) => Ok(self.plan_time(time, ask)),
            Body::WriteAsk(_) => Ok(StepPlan::of_time(self.alloc, time)),
            Body::ReadAsk(_) => Ok(StepPlan::of_time(self.alloc, time)),
            Body::TableAsk(_) => Ok(StepPlan::of_time(self.alloc, self.time)),
            Body::SplitAsk(_) => Ok(StepPlan::of_time(self.alloc, self.time)),
            Body::SplitDone(_) => Ok(StepPlan::of_time(self.alloc, self.time)),
            Body::WriteDone(_) => Ok(StepPlan::of_time(self.alloc, self.time)),
            Body::ReadRows(_) => Ok(StepPlan::of_time(self.alloc, self.time)),
            Body::Refused(answer) => self.plan_refused(time, answer),
            Body::TimeTold(_) => Ok(StepPlan::of_time(self.alloc, self.time)),
        }
    }

    // Returns the plan for a message to this shard.
    fn plan_message(&self, message: Message) -> Result<StepPlan, Memory>
        requires early { self.now.time.0 < last_time }
        requires brought { message.time.0 < last_time }
        ensures planned { IfOk result (λ p. IsPlanned (shard_view self.now) (letter_input (letter_of message)) p) }
        ensures follows { IfOk result (λ p. Follows self.now p) }
    {
        let time = later(self.time, message.time);
        match standing_of(self.me, &self.tables, &message.body) {
            Standing::NoAsk => self.plan_other(time, message.body),
            Standing::Fits => self.plan_fitting(time, message.body),
            Standing::ShardOld => self.plan_unknown(time, message),
            Standing::RouterOld(met) => self.plan_older(time, &message, met),
        }
    }

    // Returns the plan for an input.
    fn plan_input(&self, input: Input) -> Result<StepPlan, Memory>
        requires early { self.now.time.0 < last_time }
        requires brought { time_in (input_of input) < last_time }
        ensures planned { IfOk result (λ p. IsStep (shard_view self.now) (input_of input) p) }
        ensures follows { IfOk result (λ p. Follows self.now p) }
    {
        match input {
            Input::Deliver(message) => {
                if message.receiver != self.me {
                    return Ok(StepPlan::of_time(self.alloc, self.time));
                }
                self.plan_message(message)
            }
            Input::Moment(moment) => self.plan_moment(moment),
            Input::Client { .. } => Ok(StepPlan::of_time(self.alloc, self.time)),
            Input::Opened => Ok(StepPlan::of_time(self.alloc, self.time)),
        }
    }

    // Makes room for what was planned. Returns `Memory` if memory runs out. The shard is the same either way.
    fn make_room(&mut self, change: &Change) -> Result<(), Memory>
        ensures room { OnOk result (HasRoomFor self.new change.now) }
        ensures same { shard_view self.new ≡ shard_view self.old }
        ensures last { last_of self.new.store ≡ last_of self.old.store }
        ensures steps { self.new.steps ≡ self.old.steps }
    {
        match change {
            Change::Nothing => {}
            Change::Park(_) => self.parked.reserve(1)?,
            Change::Learn(_) => self.tables.reserve()?,
            Change::Release(_) => {}
            Change::Ceil(_) => {}
            Change::Write { namespace, entries } => self.store.reserve(namespace, entries)?,
        }
        Ok(())
    }

    // Returns the plan for an input, with room for it. Else nothing changes.
    pub(crate) fn plan(&mut self, input: Input) -> Result<StepPlan, Memory>
        requires early { self.old.time.0 < last_time }
        requires brought { time_in (input_of input) < last_time }
        ensures planned { IfOk result (λ p. StepPlanned (state_of self.old) (input_of input) (map letter_of p.mail) [] p.records.items
            (shard_state (after (shard_view self.old) p))) }
        ensures ready { IfOk result (λ p. IsReady self.new p) }
        ensures same { shard_view self.new ≡ shard_view self.old }
        ensures steps { self.new.steps ≡ self.old.steps }
    {
        let plan = self.plan_input(input)?;
        self.make_room(&plan.change)?;
        Ok(plan)
    }

    // Becomes what was planned, and sends its messages. Takes no memory.
    pub(crate) fn take(&mut self, plan: StepPlan) -> Outputs<Message>
        requires ready { IsReady self.old plan }
        ensures state { shard_view self.new ≡ after (shard_view self.old) plan }
        ensures mail { result.mail ≡ plan.mail }
        ensures replies { result.replies ≡ [] }
        ensures steps { self.new.steps ≡ self.old.steps }
    {
        let StepPlan {
            time,
            mail,
            records: _,
            change,
        } = plan;
        self.time = time;
        self.change(change);
        Outputs {
            mail,
            replies: ReplyList::new(self.alloc),
        }
    }

    // Changes as planned, at its time.
    fn change(&mut self, change: Change)
        requires follows { FollowsBy self.old self.old.time.0 change }
        requires room { HasRoomFor self.old change }
        ensures state { shard_view self.new ≡ changed (shard_view self.old) self.old.time.0 change }
        ensures steps { self.new.steps ≡ self.old.steps }
    {
        match change {
            Change::Nothing => {}
            Change::Park(message) => self.parked.push_reserved(message),
            Change::Learn(table) => {
                keep_others(&mut self.parked, table.namespace());
                self.tables.adopt(table);
            }
            Change::Release(namespace) => keep_others(&mut self.parked, &namespace),
            Change::Ceil(at) => self.ceiling = at,
            Change::Write { namespace, entries } => self.store.commit(&namespace, entries),
        }
    }
}
