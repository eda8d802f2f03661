//! The store of a shard.

ghost use Rattle.std.specs.Prelude.{◌≡◌, ◌≤◌, ◌<◌, ◌+◌, ◌-◌, ◌^◌, ◌++◌, ◌∷◌, ℕ, List, [], None, Some, Ok, pos, false, true, filter, is_none, is_some, map, if◌then◌else◌, IfOk, IfSome, OnErr, OnOk};
ghost use Rattle.std.specs.Arc.{arc_value};
ghost use Rattle.std.specs.Option.{option_map, IsSome};
ghost use Rattle.bson_values.specs.Tree.{Datum};
ghost use Rattle.value_compare.specs.Order.{same_value};
ghost use Rattle.cluster_base.specs.declared.identity.Session.{Session};
ghost use Rattle.node_model.specs.Documents.{documents_at};
ghost use Rattle.node_model.specs.Halves.{may_stand_in};
ghost use Rattle.node_model.specs.History.{Entry, IsIn, document_left, insert_operation};
ghost use Rattle.node_model.specs.Exchanges.{number_for};
ghost use Rattle.node_model.specs.Service.{entry_for, seen_before};
ghost use Rattle.node_model.specs.ShardRows.{greatest_entry};
ghost use Rattle.command_replies.specs.Kinds.{given_view};
ghost use Rattle.command_model.specs.CommandSizes.{IsKeepable};
ghost use Rattle.session_book.specs.Books.{NotesAre, room_in};
ghost use Rattle.node_traits.specs.Ids.{id_view};
ghost use Rattle.statement_views.specs.Views.{number_view, operation_view};
ghost use Rattle.shard_store.specs.Outcomes.{done_view};
ghost use Rattle.shard_store.specs.Entries.{Kept, entries_kept, entry_view, notes_kept, operation_in};
ghost use Rattle.shard_store.specs.Codes.{AreShown, noted-prop, shown-prop};
ghost use Rattle.shard_store.specs.Collections.{last_under, room_under};
ghost use Rattle.shard_store.specs.Plans.{AreNext, IsEffect, IsNext, IsOf, IsPlan, IsServed, made_by, planned_in, time_of};

use crate::collections::Collections;
use crate::effect::{Effect, key_of_op};
use crate::entry::{LentWords, Planned, statement_number};
use crate::outcome::{EntryOutcome, EntryResult, StatementOutcome};
use crate::plan::EntryPlan;
use bson_values::{Document, Memory};
use cluster_base::{Namespace, NodeId, RequestId, Stmt, Time};
use command_replies::ClientNumber;
use ghost_list::GhostList;
use session_book::{Book, Seen};
use std::alloc::Global;
use std::sync::Arc;
use update_ops::Op;
use value_compare::{Key, OpWords, SpanList, key_of};

/// What a shard stores of its entries: the documents that they result in, with their past, and the outcome of each statement.
///
/// The entries themselves are not in memory: `entries` is read by proofs alone.
#[derive(Drop)]
pub struct ShardStore {
    shard: NodeId,
    // The time of the last entry, or 0.
    last: Time,
    collections: Collections,
    book: Book,
    entries: GhostList<Namespace, Planned>,
    // No entry is later than the last.
    ghost past: { (e : Entry) → IsIn e (entries_kept shard.0 entries.items) → e.time ≤ last.0 },
    // One of them is at that time, unless there is none.
    ghost reached: { last.0 ≤ greatest_entry (entries_kept shard.0 entries.items) },
    // At each time the collections show what the entries left.
    ghost shown: { AreShown collections (entries_kept shard.0 entries.items) } by { shown-prop collections (entries_kept shard.0 entries.items) },
    // No version is later than the last entry.
    ghost versions: { (n : List ℕ) (k : Datum) (t : ℕ) → last_under collections n k ≡ Some t → t ≤ last.0 },
    // The book has the outcomes of the statements.
    ghost noted: { NotesAre book (notes_kept entries.items) } by { noted-prop book (notes_kept entries.items) },
}

impl ShardStore {
    ghost use Rattle.shard_store.specs.Stores.{HasRoom, entries_of, last_of, shard_of};

    /// Returns the store of a shard without entries.
    pub fn new(alloc: Global, shard: NodeId) -> ShardStore
        ensures entries { entries_of result ≡ [] }
        ensures last { last_of result ≡ 0 }
        ensures shard { shard_of result ≡ shard.0 }
    {
        ShardStore {
            shard,
            last: Time(0),
            collections: Collections::new(alloc),
            book: Book::new(alloc),
            entries: GhostList::new(),
        }
    }

    /// Returns the greatest time of an entry, or 0.
    pub fn last(&self) -> Time
        ensures { result.0 ≡ greatest_entry (entries_of self.now) }
    {
        self.last
    }

    /// Returns the outcome of the statement with this index of a request, to which its client gave this number or none, unless it is new: its original
    /// outcome, or that its session has a greater transaction. Returns `Memory` if memory runs out.
    // Inlined, so that the number is read where it is.
    #[inline(always)]
    pub fn look(
        &self,
        number: Option<ClientNumber>,
        id: RequestId,
        index: u32,
    ) -> Result<Option<StatementOutcome>, Memory>
        ensures { IfOk result (λ told. option_map (done_view index) told
            ≡ seen_before (number_for (given_view number) (id_view id) index) (entries_of self.now)) }
    {
        match self.book.look(&statement_number(number, id, index)) {
            Seen::New => Ok(None),
            Seen::Done { time, reply } => {
                let outcome = EntryOutcome::of(reply)?;
                Ok(Some(StatementOutcome::WasDone(EntryResult { time, outcome })))
            }
            Seen::Older(greatest) => Ok(Some(StatementOutcome::Older(greatest))),
        }
    }

    /// Returns the document that the entries leave in the namespace under the key, if they leave one.
    pub fn document(&self, namespace: &Namespace, key: &Key) -> Option<&Arc<Document, Global>>
        ensures { option_map (λ d. arc_value d.now) result ≡ document_left namespace.now (Some key.now) (entries_of self.now) }
    {
        self.collections.get_at(namespace.as_str(), key, self.last)
    }

    /// Returns the documents that were in the namespace at a time and may be in the ranges and points, in key order. Returns `Memory` if memory
    /// runs out.
    pub fn documents_at<'a>(
        &'a self,
        namespace: &Namespace,
        span: &SpanList,
        time: Time,
    ) -> Result<Vec<&'a Arc<Document, Global>>, Memory>
        ensures { IfOk result (λ ds. map (λ d. arc_value d.now) ds.items
            ≡ filter (may_stand_in span.now) (documents_at (entries_of self.now) namespace.now time.0)) }
    {
        self.collections.scan_at(namespace.as_str(), span, time)
    }

    // Returns what an insert does after the entries, or `Memory` if memory runs out.
    fn insert(
        &self,
        alloc: Global,
        namespace: &Namespace,
        document: &Arc<Document, Global>,
    ) -> Result<Effect, Memory>
        requires { IsKeepable (insert_operation (arc_value document.now)) }
        ensures { IfOk result (λ e. IsEffect (entries_of self.now) namespace.now (insert_operation (arc_value document.now)) e.key e.left e.outcome) }
    {
        let Ok(key) = key_of(alloc, document) else {
            // A document that can be stored has a key.
            return Err(Memory);
        };
        let stands = self.document(namespace, &key).is_some();
        Effect::of_insert(key, document, stands)
    }

    // Returns what a statement with these operands does after the entries, or `Memory` if memory runs out.
    fn change(
        &self,
        alloc: Global,
        namespace: &Namespace,
        words: &Arc<OpWords, Global>,
    ) -> Result<Effect, Memory>
        ensures { IfOk result (λ e. IsEffect (entries_of self.now) namespace.now (operation_view (arc_value words.now)) e.key e.left e.outcome) }
    {
        let Ok(op) = Op::read(alloc, words) else {
            // Operands that can be stored read as a statement.
            return Err(Memory);
        };
        let key = key_of_op(alloc, &op)?;
        match self.document(namespace, &key) {
            Some(before) => {
                let before: &Document = before;
                Effect::of_op(alloc, key, &op, Some(before))
            }
            None => Effect::of_op(alloc, key, &op, None),
        }
    }

    // Returns what a statement does after the entries, or `Memory` if memory runs out.
    fn effect(
        &self,
        alloc: Global,
        namespace: &Namespace,
        words: LentWords,
    ) -> Result<Effect, Memory>
        requires { IsKeepable (operation_in words) }
        ensures { IfOk result (λ e. IsEffect (entries_of self.now) namespace.now (operation_in words.entry) e.key e.left e.outcome) }
    {
        match words {
            LentWords::Insert(document) => self.insert(alloc, namespace, document),
            LentWords::Change(words) => self.change(alloc, namespace, words),
        }
    }

    /// Serves a statement after the entries of the store and those of the plan: returns its outcome unless it is new, or plans its entry
    /// at the next time; or leaves it for later, where its index is not greater than those of the plan, or its key is one of theirs.
    /// Returns `Memory` if memory runs out, and the plan is of no more use then.
    pub fn serve(
        &self,
        plan: &mut EntryPlan,
        alloc: Global,
        namespace: &Namespace,
        index: u32,
        words: LentWords,
    ) -> Result<Option<StatementOutcome>, Memory>
        requires plan { IsPlan (entries_of self.now) (last_of self.now) namespace.now plan.old }
        requires keepable { IsKeepable (operation_in words) }
        requires room { time_of plan.old < 2 ^ 64 - 1 }
        ensures plan { OnOk result (IsPlan (entries_of self.now) (last_of self.now) namespace.now plan.new) }
        ensures served { IfOk result (λ told. (made : List Entry)
            × (made_by (shard_of self.now) namespace.now plan.new ≡ made_by (shard_of self.now) namespace.now plan.old ++ made)
            × IsServed (shard_of self.now) namespace.now (entries_of self.now ++ made_by (shard_of self.now) namespace.now plan.old) (time_of plan.old)
            (record { number = number_for (given_view plan.old.number) (id_view plan.old.id) index; operation = operation_in words.entry })
            (option_map (done_view index) told) made (time_of plan.new)) }
        ensures first { planned_in plan.old ≡ [] → IfOk result (λ told. IsSome told) }
        ensures id { plan.new.id ≡ plan.old.id }
        ensures number { plan.new.number ≡ plan.old.number }
    {
        if let Some(told) = self.look(plan.number, plan.id, index)? {
            return Ok(Some(told));
        }
        if (index as u64) < plan.free {
            return Ok(None);
        }
        let Effect { key, left, outcome } = self.effect(alloc, namespace, words)?;
        if plan.has_key(&key) {
            return Ok(None);
        }
        let words = words.share()?;
        let time = Time(plan.last.0 + 1);
        let told = EntryResult {
            time,
            outcome: outcome.copy()?,
        };
        plan.push(Planned {
            statement: statement_number(plan.number, plan.id, index),
            time,
            words,
            key,
            left,
            outcome,
        })?;
        Ok(Some(StatementOutcome::WasDone(told)))
    }

    /// Plans the entry of a statement that was made at this time, by the same function as `serve`. None where the statement is not new. Returns `Memory` if
    /// memory runs out, and where the operands are none that can be stored.
    pub fn plan_again(
        &self,
        alloc: Global,
        namespace: &Namespace,
        statement: Stmt,
        time: Time,
        words: &Arc<OpWords, Global>,
    ) -> Result<Option<Planned>, Memory>
        requires later { last_of self.now < time.0 }
        ensures none { IfOk result (λ planned. planned ≡ None → is_none (seen_before (number_view statement) (entries_of self.now)) ≡ false) }
        ensures next { IfOk result (λ planned. IfSome planned (IsNext (entries_of self.now) (last_of self.now) namespace.now)) }
        ensures entry { IfOk result (λ planned. IfSome planned (λ p. entry_view (shard_of self.now) namespace.now p
            ≡ entry_for (entries_of self.now) time.0 (shard_of self.now) namespace.now
            (record { number = number_view statement; operation = operation_view (arc_value words.now) }))) }
        ensures time { IfOk result (λ planned. IfSome planned (λ p. p.time ≡ time)) }
    {
        if !self.book.is_new(&statement) {
            return Ok(None);
        }
        let Effect { key, left, outcome } = self.change(alloc, namespace, words)?;
        let words = LentWords::Change(words).share()?;
        Ok(Some(Planned {
            statement,
            time,
            words,
            key,
            left,
            outcome,
        }))
    }

    /// Makes a planned entry. Returns `Memory` if memory runs out, and then nothing else is to be seen of it.
    pub fn make(&mut self, namespace: &Namespace, planned: Planned) -> Result<(), Memory>
        requires next { IsNext (entries_of self.old) (last_of self.old) namespace.now planned }
        ensures entries { OnOk result (entries_of self.new ≡ entries_of self.old ++ entry_view (shard_of self.old) namespace.now planned ∷ []) }
        ensures last { OnOk result (last_of self.new ≡ planned.time.0) }
        ensures unchanged { OnErr result ((entries_of self.new ≡ entries_of self.old) × (last_of self.new ≡ last_of self.old)) }
        ensures shard { shard_of self.new ≡ shard_of self.old }
    {
        self.book.reserve(&planned.statement)?;
        self.collections.reserve(namespace.as_str(), &planned.key)?;
        self.enter(namespace, planned);
        Ok(())
    }

    /// Makes room for the entries of a plan. Returns `Memory` if memory runs out. Either way nothing else is to be seen of it.
    pub fn reserve(&mut self, namespace: &Namespace, plan: &EntryPlan) -> Result<(), Memory>
        ensures room { OnOk result (HasRoom self.new namespace.now plan.now) }
        ensures entries { entries_of self.new ≡ entries_of self.old }
        ensures last { last_of self.new ≡ last_of self.old }
        ensures shard { shard_of self.new ≡ shard_of self.old }
    {
        self.book.reserve_run(
            &statement_number(plan.number, plan.id, 0),
            plan.planned.len(),
        )?;
        self.collections
            .reserve_all(namespace.as_str(), &plan.planned)
    }

    // Makes an entry, for which there is room.
    fn enter(&mut self, namespace: &Namespace, planned: Planned)
        requires next { IsNext (entries_of self.old) (last_of self.old) namespace.now planned }
        requires version { 1 ≤ room_under self.old.collections namespace.now planned.key }
        requires note { 1 ≤ room_in self.old.book planned.statement.session }
        ensures entries { entries_of self.new ≡ entries_of self.old ++ entry_view (shard_of self.old) namespace.now planned ∷ [] }
        ensures last { last_of self.new ≡ planned.time.0 }
        ensures shard { shard_of self.new ≡ shard_of self.old }
        ensures versions { (k : Datum) → room_under self.old.collections namespace.now k
            ≤ room_under self.new.collections namespace.now k + (if same_value planned.key k then 1 else 0) }
        ensures notes { (s : Session) → room_in self.old.book s ≤ room_in self.new.book s + 1 }
    {
        self.entries = self.entries.with(namespace, &planned);
        let Planned {
            statement,
            time,
            key,
            left,
            outcome,
            ..
        } = planned;
        self.book.note(&statement, time, outcome.into_reply());
        self.last = time;
        self.collections.enter(namespace.as_str(), &key, time, left);
    }

    /// Makes the entries of a plan, for which there is room. Takes no memory.
    pub fn commit(&mut self, namespace: &Namespace, plan: EntryPlan)
        requires plan { IsPlan (entries_of self.old) (last_of self.old) namespace.now plan }
        requires room { HasRoom self.old namespace.now plan }
        ensures entries { entries_of self.new ≡ entries_of self.old ++ made_by (shard_of self.old) namespace.now plan }
        ensures last { last_of self.new ≤ time_of plan }
        ensures shard { shard_of self.new ≡ shard_of self.old }
    {
        for planned in plan.planned {
            self.enter(namespace, planned);
        }
    }
}
