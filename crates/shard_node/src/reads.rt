//! Reads at a shard.

ghost use Rattle.std.specs.Prelude.{◌≡◌, ◌<◌, ◌≤◌, IfOk, false, true};
ghost use Rattle.chunk_table.specs.VerdictMeanings.{sent_view};
ghost use Rattle.chunk_table.specs.Tables.{table_of};
ghost use Rattle.chunk_table.specs.Verdicts.{fits, verdict_of};
ghost use Rattle.node_traits.specs.Letters.{Letter, letter_input};
ghost use Rattle.node_traits.specs.ShardRows.{heard, says, top};
ghost use Rattle.protocol_model.specs.Bodies.{body_view, half_ask_view, read_ask_view, time_ask_view};
ghost use Rattle.protocol_model.specs.Messages.{letter_of};
ghost use Rattle.shard_node.specs.Plans.{Follows, IsPlanned, half_wanted};
ghost use Rattle.shard_node.specs.State.{shard_view};

use crate::node::ShardNode;
use crate::plan::{Change, StepPlan};
use bson_values::Memory;
use cluster_base::{NodeId, Time};
use node_traits::MailList;
use pipeline_eval::share_kept;
use pipeline_lang::Half;
use protocol_model::{Body, HalfAsk, Message, ReadAsk, ReadRows, TimeAsk, TimeTold};
use shard_requests::{answer_half, ceiling_records, later};
use std::sync::Arc;

impl ShardNode {
    // Returns a message from this shard, at a time.
    pub(crate) fn message(&self, to: NodeId, time: Time, body: Body) -> Message
        ensures { letter_of result ≡ says (shard_view self.now) to.0 time.0 (body_view body) }
    {
        Message {
            sender: self.me,
            receiver: to,
            time,
            body,
        }
    }

    // Returns whether a time is at most the greatest of the ceilings and entries.
    fn is_covered(&self, at: Time) -> bool
        ensures covered { result ≡ true → at.0 ≤ top (shard_view self.now) }
        ensures above { result ≡ false → top (shard_view self.now) < at.0 }
    {
        at.0 <= later(self.ceiling, self.store.last()).0
    }

    // Returns the message that makes the half of a read of its documents: those that match the filter at the head of the half, since it costs less to test it
    // than to share a document. Returns `Memory` if memory runs out.
    fn half_message(&self, time: Time, ask: &ReadAsk) -> Result<Message, Memory>
        ensures { IfOk result (λ m. letter_of m ≡ says (shard_view self.now) self.now.me.0 time.0 (half_wanted (shard_view self.now) ask.now)) }
    {
        let asked: &Half = &ask.half;
        let found = self
            .store
            .documents_at(&ask.namespace, &asked.span, ask.at)?;
        let documents = share_kept(self.alloc, asked, found)?;
        let half = HalfAsk {
            id: ask.id,
            turn: ask.turn,
            namespace: ask.namespace.copy()?,
            at: ask.at,
            half: Arc::try_clone(&ask.half)?,
            documents,
        };
        Ok(self.message(self.me, time, Body::HalfAsk(half)))
    }

    // Returns the plan for a read at a time that is covered: its documents are taken. Returns `Memory` if memory runs out.
    fn plan_covered(&self, time: Time, ask: &ReadAsk) -> Result<StepPlan, Memory>
        requires fits { verdict_of (sent_view ask.now.sent) self.now.me.0 (table_of ask.now.namespace self.now.tables.tables) ≡ fits }
        requires covered { ask.now.at.0 ≤ top (shard_view self.now) }
        ensures planned { (m : Letter) → m.body ≡ read_ask_view ask.now → time.0 ≡ heard (shard_view self.now) m →
            IfOk result (λ p. IsPlanned (shard_view self.now) (letter_input m) p) }
        ensures follows { IfOk result (λ p. Follows self.now p) }
    {
        let message = self.half_message(time, ask)?;
        Ok(StepPlan::of_message(self.alloc, time, message))
    }

    // Returns the plan for a read at a time above all entries and ceilings: its documents are taken, and the time is a ceiling from now on. Returns `Memory`
    // if memory runs out.
    fn plan_above(&self, time: Time, ask: &ReadAsk) -> Result<StepPlan, Memory>
        requires fits { verdict_of (sent_view ask.now.sent) self.now.me.0 (table_of ask.now.namespace self.now.tables.tables) ≡ fits }
        requires above { top (shard_view self.now) < ask.now.at.0 }
        ensures planned { (m : Letter) → m.body ≡ read_ask_view ask.now → time.0 ≡ heard (shard_view self.now) m →
            IfOk result (λ p. IsPlanned (shard_view self.now) (letter_input m) p) }
        ensures follows { IfOk result (λ p. Follows self.now p) }
    {
        let records = ceiling_records(self.alloc, ask.at)?;
        let message = self.half_message(time, ask)?;
        Ok(StepPlan {
            time,
            mail: MailList::of_one(self.alloc, message),
            records,
            change: Change::Ceil(ask.at),
        })
    }

    // Returns the plan for a read on the table that it was sent with. Returns `Memory` if memory runs out.
    pub(crate) fn plan_read(&self, time: Time, ask: &ReadAsk) -> Result<StepPlan, Memory>
        requires fits { verdict_of (sent_view ask.now.sent) self.now.me.0 (table_of ask.now.namespace self.now.tables.tables) ≡ fits }
        ensures planned { (m : Letter) → m.body ≡ read_ask_view ask.now → time.0 ≡ heard (shard_view self.now) m →
            IfOk result (λ p. IsPlanned (shard_view self.now) (letter_input m) p) }
        ensures follows { IfOk result (λ p. Follows self.now p) }
    {
        if self.is_covered(ask.at) {
            return self.plan_covered(time, ask);
        }
        self.plan_above(time, ask)
    }

    // Returns the plan for the half of the documents of a read, or `Memory` if memory runs out.
    pub(crate) fn plan_rows(&self, time: Time, ask: HalfAsk) -> Result<StepPlan, Memory>
        ensures planned { (m : Letter) → m.body ≡ half_ask_view ask → time.0 ≡ heard (shard_view self.now) m →
            IfOk result (λ p. IsPlanned (shard_view self.now) (letter_input m) p) }
        ensures follows { IfOk result (λ p. Follows self.now p) }
    {
        let HalfAsk {
            id,
            turn,
            half,
            documents,
            ..
        } = ask;
        let rows = answer_half(self.alloc, &half, documents)?;
        let told = ReadRows { id, turn, rows };
        let message = self.message(id.router, time, Body::ReadRows(told));
        Ok(StepPlan::of_message(self.alloc, time, message))
    }

    // Returns the plan that sends the time.
    pub(crate) fn plan_time(&self, time: Time, ask: TimeAsk) -> StepPlan
        ensures planned { (m : Letter) → m.body ≡ time_ask_view ask → time.0 ≡ heard (shard_view self.now) m →
            IsPlanned (shard_view self.now) (letter_input m) result }
        ensures follows { Follows self.now result }
    {
        let told = TimeTold { id: ask.id };
        let message = self.message(ask.id.router, time, Body::TimeTold(told));
        StepPlan::of_message(self.alloc, time, message)
    }
}
