//! What statements do to the document under their key (MongoDB manual, "insert", "update", "delete").

ghost use Rattle.std.specs.Prelude.{◌≡◌, IfOk, Ok, Some, Option, is_some, option_map};
ghost use Rattle.std.specs.Arc.{arc_value};
ghost use Rattle.bson_values.specs.Tree.{Fields};
ghost use Rattle.command_model.specs.MessageSizes.{IsSmall};
ghost use Rattle.node_model.specs.History.{fails_with};
ghost use Rattle.query_model.specs.Effects.{effect_of, write_key};
ghost use Rattle.query_model.specs.KeySpans.{key_equal};
ghost use Rattle.query_model.specs.Writes.{Write, insert_write};
ghost use Rattle.update_ops.specs.Ops.{effect_shown, write_of};
ghost use Rattle.shard_store.specs.Entries.{left_behind};
ghost use Rattle.shard_store.specs.Faults.{error_view};
ghost use Rattle.shard_store.specs.Outcomes.{outcome_view};
ghost use Rattle.shard_store.specs.declared.entry.Left.TheVariants.{Same};

use crate::entry::Left;
use crate::fault::WriteFault;
use crate::outcome::EntryOutcome;
use bson_values::{Document, Memory};
use match_expr::{Expr, key_equal};
use std::alloc::Global;
use std::sync::Arc;
use update_ops::{Applied, Op, apply};
use value_compare::{Key, key_of};

/// A document that is stored has at most so many bytes (MongoDB manual, "MongoDB Limits and Thresholds", BSON document size).
const MOST_BYTES: usize = 16_777_216;

/// What a statement does: the key that it acts under, what it leaves there, and its outcome.
#[derive(Drop)]
pub(crate) struct Effect {
    pub(crate) key: Key,
    pub(crate) left: Left,
    pub(crate) outcome: EntryOutcome,
}

/// Returns the key that a statement acts under, or `Memory` if memory runs out; a statement without a key gets one that is never stored.
pub(crate) fn key_of_op(alloc: Global, op: &Op) -> Result<Key, Memory>
    ensures { IfOk result (λ key. write_key (write_of op.now) ≡ Some key) }
{
    match op {
        Op::Insert(document) => match key_of(alloc, document) {
            Ok(key) => Ok(key),
            Err(_) => Err(Memory),
        },
        Op::Update { filter, .. } => asked_key(filter),
        Op::Delete { filter } => asked_key(filter),
    }
}

// Returns the key that a filter targets, or `Memory` if memory runs out.
fn asked_key(filter: &Expr) -> Result<Key, Memory>
    ensures { IfOk result (λ key. key_equal filter.now ≡ Some key) }
{
    match key_equal(filter) {
        Some(key) => key.copy(),
        None => Err(Memory),
    }
}

// Returns the result of a statement that matched, inserted or removed so many documents. Returns `Memory` if memory runs out.
fn left_of(alloc: Global, count: u32, after: Option<Document>) -> Result<Left, Memory>
    ensures { (before : Option Fields) → (count ≡ 0 → after ≡ before) → IfOk result (λ left. left_behind left before ≡ after) }
{
    if count == 0 {
        return Ok(Left::Same);
    }
    match after {
        Some(document) => Ok(Left::Other(Some(Arc::new(alloc, document)?))),
        None => Ok(Left::Other(None)),
    }
}

impl Effect {
    ghost use Rattle.shard_store.specs.Effects.{Does};

    // Returns the effect of a statement that fails: nothing is changed.
    fn refused(key: Key, fault: WriteFault) -> Effect
        ensures key { result.key ≡ key }
        ensures left { result.left ≡ Same }
        ensures told { outcome_view result.outcome ≡ fails_with (error_view fault) }
    {
        Effect {
            key,
            left: Left::Same,
            outcome: EntryOutcome::refused(fault),
        }
    }

    // Returns what was made of a document, or `Memory` if memory runs out.
    fn done(alloc: Global, key: Key, applied: Applied) -> Result<Effect, Memory>
        ensures key { IfOk result (λ e. e.key ≡ key) }
        ensures does { (write : Write) (before : Option Fields) → effect_of write before ≡ Ok (effect_shown applied) →
            IfOk result (λ e. Does write before e.left e.outcome) }
    {
        let Applied { after, reply } = applied;
        let left = left_of(alloc, reply.n, after)?;
        Ok(Effect {
            key,
            left,
            outcome: EntryOutcome::done(reply),
        })
    }

    /// Returns what an insert of a document with this key does, where a document is stored under it or none is. Returns `Memory` if memory runs out.
    pub(crate) fn of_insert(
        key: Key,
        document: &Arc<Document, Global>,
        stands: bool,
    ) -> Result<Effect, Memory>
        requires { IsSmall (arc_value document.now) }
        ensures key { IfOk result (λ e. e.key ≡ key) }
        ensures does { (before : Option Fields) → stands ≡ is_some before →
            IfOk result (λ e. Does (insert_write (arc_value document.now)) before e.left e.outcome) }
    {
        if stands {
            return Ok(Effect::refused(key, WriteFault::Duplicate));
        }
        if document.size() > MOST_BYTES {
            return Ok(Effect::refused(key, WriteFault::TooLarge));
        }
        let document = Arc::try_clone(document)?;
        Ok(Effect {
            key,
            left: Left::Other(Some(document)),
            outcome: EntryOutcome::inserted(),
        })
    }

    /// Returns what a statement does under its key, where this document is stored, or none. Returns `Memory` if memory runs out.
    pub(crate) fn of_op(
        alloc: Global,
        key: Key,
        op: &Op,
        before: Option<&Document>,
    ) -> Result<Effect, Memory>
        ensures key { IfOk result (λ e. e.key ≡ key) }
        ensures does { IfOk result (λ e. Does (write_of op.now) (option_map (λ d. d.now) before.entry) e.left e.outcome) }
    {
        match apply(alloc, op, before) {
            Ok(applied) => Effect::done(alloc, key, applied),
            Err(fault) => Ok(Effect::refused(key, WriteFault::of(fault)?)),
        }
    }
}
