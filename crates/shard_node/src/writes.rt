//! Writes at a shard.

ghost use Rattle.std.specs.Prelude.{◌≡◌, ◌≢◌, ◌≤◌, ◌<◌, ◌+◌, ◌-◌, ◌^◌, ◌∷◌, [], ℕ, List, IfOk, IfSome, OnOk, None, Some, false, map, length};
ghost use Rattle.std.specs.Option.{IsSome};
ghost use Rattle.chunk_table.specs.VerdictMeanings.{sent_view};
ghost use Rattle.chunk_table.specs.Tables.{table_of};
ghost use Rattle.chunk_table.specs.Verdicts.{fits, verdict_of};
ghost use Rattle.command_replies.specs.Kinds.{given_view};
ghost use Rattle.node_model.specs.Service.{Serves};
ghost use Rattle.node_model.specs.Lacks.{last_time};
ghost use Rattle.node_traits.specs.Letters as letters;
ghost use Rattle.node_traits.specs.Letters.{Letter, letter_input};
ghost use Rattle.node_traits.specs.ShardRows.{Ask, ask_in, heard, was_seen};
ghost use Rattle.node_traits.specs.Ids.{id_view};
ghost use Rattle.protocol_model.specs.Bodies.{write_ask_view};
ghost use Rattle.protocol_model.specs.Statements.{done_view, statement_view};
ghost use Rattle.shard_node.specs.Plans.{Follows, IsPlanned};
ghost use Rattle.shard_node.specs.Progress.{GoesOn, GoesOrEnds};
ghost use Rattle.shard_node.specs.State.{shard_view};
ghost use Rattle.shard_node.specs.Writes.{AreKept, IsStep};
ghost use Rattle.shard_store.specs.Plans.{IsPlan, made_by, planned_in, time_of};
ghost use Rattle.shard_store.specs.Stores.{entries_of, last_of};

use crate::node::ShardNode;
use crate::plan::{Change, StepPlan};
use bson_values::Memory;
use cluster_base::Time;
use node_traits::MailList;
use protocol_model::{Body, Statement, WriteAsk, WriteDone};
use shard_requests::{StatementResult, WriteReply, done_of, ends, entry_bytes, lend_words};
use shard_store::{EntryPlan as Entries, StatementOutcome, statement_number};

/// So many statements of a request are served in one step at most.
const MOST_SERVED: usize = 100_000;

impl ShardNode {
    // Serves a statement after the entries of the shard and those that are planned, or leaves it for later. Returns `Memory` if memory runs out,
    // and what was planned is of no more use then.
    fn serve(
        &self,
        entries: &mut Entries,
        ask: &WriteAsk,
        statement: &Statement,
    ) -> Result<Option<StatementResult>, Memory>
        requires plan { IsPlan (entries_of self.now.store) (last_of self.now.store) ask.now.namespace entries.old }
        requires room { time_of entries.old < 2 ^ 64 - 1 }
        requires id { entries.old.id ≡ ask.now.id }
        requires number { entries.old.number ≡ ask.now.number }
        ensures plan { OnOk result (IsPlan (entries_of self.now.store) (last_of self.now.store) ask.now.namespace entries.new) }
        ensures served { IfOk result (λ served. IsStep self.now.me.0 ask.now.namespace (entries_of self.now.store)
            (made_by self.now.me.0 ask.now.namespace entries.old) (time_of entries.old)
            (statement_view (given_view ask.now.number) (id_view ask.now.id) statement.now) served
            (made_by self.now.me.0 ask.now.namespace entries.new) (time_of entries.new)) }
        ensures first { planned_in entries.old ≡ [] → IfOk result (λ served. IsSome served) }
        ensures id { entries.new.id ≡ entries.old.id }
        ensures number { entries.new.number ≡ entries.old.number }
    {
        let before = entries.time();
        let words = lend_words(&statement.operation);
        let told = self.store.serve(entries, self.alloc, &ask.namespace, statement.index, words)?;
        let Some(told) = told else {
            return Ok(None);
        };
        if entries.time().0 == before.0 {
            let done = done_of(self.alloc, statement.index, told)?;
            return Ok(Some(StatementResult { done, record: None }));
        }
        let StatementOutcome::WasDone(entry) = told else {
            // A statement that makes an entry is done.
            return Err(Memory);
        };
        let number = statement_number(ask.number, ask.id, statement.index);
        let record = entry_bytes(
            self.alloc,
            &entry,
            &ask.namespace,
            &number,
            &statement.operation,
        )?;
        let done = done_of(
            self.alloc,
            statement.index,
            StatementOutcome::WasDone(entry),
        )?;
        Ok(Some(StatementResult {
            done,
            record: Some(record),
        }))
    }

    // Serves one statement more of a request, after what was served of it, and returns whether more may be served after it in this step.
    // Returns `Memory` if memory runs out.
    fn serve_next(
        &self,
        entries: &mut Entries,
        ask: &WriteAsk,
        statement: &Statement,
        all: &mut WriteReply,
    ) -> Result<bool, Memory>
        requires plan { IsPlan (entries_of self.now.store) (last_of self.now.store) ask.now.namespace entries.old }
        requires id { entries.old.id ≡ ask.now.id }
        requires number { entries.old.number ≡ ask.now.number }
        requires early { time_of entries.old < last_time + length all.old.dones.items }
        requires first { all.old.dones.items ≡ [] → planned_in entries.old ≡ [] }
        ensures plan { OnOk result (IsPlan (entries_of self.now.store) (last_of self.now.store) ask.now.namespace entries.new) }
        ensures id { entries.new.id ≡ entries.old.id }
        ensures number { entries.new.number ≡ entries.old.number }
        ensures early { OnOk result (time_of entries.new < last_time + length all.new.dones.items) }
        ensures some { OnOk result (1 ≤ length all.new.dones.items) }
        ensures kept { AreKept (made_by self.now.me.0 ask.now.namespace entries.old) all.old.records.items
            → OnOk result (AreKept (made_by self.now.me.0 ask.now.namespace entries.new) all.new.records.items) }
        ensures goes { (start : ℕ) (whole left : List letters.Statement) →
            GoesOn self.now.me.0 ask.now.namespace ask.now.ordered (entries_of self.now.store) start whole
            (statement_view (given_view ask.now.number) (id_view ask.now.id) statement.now ∷ left)
            (map (λ d. done_view d) all.old.dones.items) (made_by self.now.me.0 ask.now.namespace entries.old) (time_of entries.old) →
            IfOk result (λ more. GoesOrEnds more self.now.me.0 ask.now.namespace ask.now.ordered (entries_of self.now.store) start whole left
            (map (λ d. done_view d) all.new.dones.items) (made_by self.now.me.0 ask.now.namespace entries.new) (time_of entries.new)) }
    {
        if all.dones.len() >= MOST_SERVED {
            return Ok(false);
        }
        let Some(served) = self.serve(entries, ask, statement)? else {
            return Ok(false);
        };
        let ended = ends(ask.ordered, &served.done);
        all.push(served)?;
        Ok(!ended)
    }

    // Serves the statements of a request in order, as many as one step may, and at least one of them. Returns `Memory` if memory runs out.
    fn serve_all(&self, entries: &mut Entries, ask: &WriteAsk) -> Result<WriteReply, Memory>
        requires plan { IsPlan (entries_of self.now.store) (last_of self.now.store) ask.now.namespace entries.old }
        requires id { entries.old.id ≡ ask.now.id }
        requires number { entries.old.number ≡ ask.now.number }
        requires early { time_of entries.old < last_time }
        requires empty { planned_in entries.old ≡ [] }
        ensures plan { OnOk result (IsPlan (entries_of self.now.store) (last_of self.now.store) ask.now.namespace entries.new) }
        ensures some { IfOk result (λ all. all.dones.items ≡ [] → ask.now.statements.items ≡ []) }
        ensures kept { IfOk result (λ all. AreKept (made_by self.now.me.0 ask.now.namespace entries.new) all.records.items) }
        ensures served { IfOk result (λ all. Serves self.now.me.0 ask.now.namespace ask.now.ordered (entries_of self.now.store) (time_of entries.old)
            (map (statement_view (given_view ask.now.number) (id_view ask.now.id)) ask.now.statements.items) (map (λ d. done_view d) all.dones.items)
            (made_by self.now.me.0 ask.now.namespace entries.new) (time_of entries.new)) }
    {
        let mut all = WriteReply::new(self.alloc);
        for statement in &ask.statements {
            if !self.serve_next(entries, ask, statement, &mut all)? {
                return Ok(all);
            }
        }
        Ok(all)
    }

    // Returns the plan for the statements of a request, which are served on the table that it was sent with, or as many of them as one step may. Returns
    // `Memory` if memory runs out.
    pub(crate) fn plan_write(&self, time: Time, ask: WriteAsk) -> Result<StepPlan, Memory>
        requires fits { verdict_of (sent_view ask.sent) self.now.me.0 (table_of ask.namespace self.now.tables.tables) ≡ fits }
        requires early { time.0 < last_time }
        requires later { last_of self.now.store ≤ time.0 }
        ensures planned { (m : Letter) → m.body ≡ write_ask_view ask → time.0 ≡ heard (shard_view self.now) m →
            IfOk result (λ p. IsPlanned (shard_view self.now) (letter_input m) p) }
        ensures follows { IfOk result (λ p. Follows self.now p) }
    {
        let mut entries = Entries::new(self.alloc, ask.number, ask.id, time);
        let WriteReply { dones, records } = self.serve_all(&mut entries, &ask)?;
        if dones.is_empty() {
            return Ok(StepPlan::of_time(self.alloc, time));
        }
        let last = entries.time();
        let done = WriteDone { id: ask.id, dones };
        let told = self.message(ask.id.router, last, Body::WriteDone(done));
        Ok(StepPlan {
            time: last,
            mail: MailList::of_one(self.alloc, told),
            records,
            change: Change::Write {
                namespace: ask.namespace,
                entries,
            },
        })
    }

    // Returns the plan for a first statement that is not new, which is answered so on any table: it alone is looked up, and what is left of the request is
    // requested again. Returns `Memory` if memory runs out.
    pub(crate) fn plan_repeat(&self, time: Time, ask: &WriteAsk) -> Result<Option<StepPlan>, Memory>
        requires old { (a : Ask) → ask_in (write_ask_view ask.now) ≡ Some a →
            verdict_of a.sent self.now.me.0 (table_of a.namespace self.now.tables.tables) ≢ fits }
        ensures planned { (m : Letter) → m.body ≡ write_ask_view ask.now → time.0 ≡ heard (shard_view self.now) m →
            IfOk result (λ p. IfSome p (λ p. IsPlanned (shard_view self.now) (letter_input m) p)) }
        ensures unseen { IfOk result (λ p. p ≡ None → was_seen (write_ask_view ask.now) (entries_of self.now.store) ≡ false) }
        ensures follows { IfOk result (λ p. IfSome p (λ p. Follows self.now p)) }
    {
        let Some(statement) = ask.statements.first() else {
            return Ok(None);
        };
        let Some(told) = self.store.look(ask.number, ask.id, statement.index)? else {
            return Ok(None);
        };
        let mut dones = Vec::new(self.alloc);
        dones.push(done_of(self.alloc, statement.index, told)?)?;
        let done = WriteDone { id: ask.id, dones };
        let answer = self.message(ask.id.router, time, Body::WriteDone(done));
        Ok(Some(StepPlan::of_message(self.alloc, time, answer)))
    }
}
