//! The effect of a statement on the document under its key (MongoDB manual, "insert", "update", "delete", "Upsert Behavior").

ghost use Rattle.std.specs.Prelude.{◌≡◌, IfErr, IfOk, Ok, Some, false, option_map, pos, true};
ghost use Rattle.std.specs.Result.{is_ok};
ghost use Rattle.query_model.specs.Edits.{is_too_large};
ghost use Rattle.query_model.specs.Effects.{effect_of, not_met, unmet, updated};
ghost use Rattle.query_model.specs.Writes.{delete_write, insert_write, update_write};
ghost use Rattle.value_model.specs.Keys.{key_of, valid_key};
ghost use Rattle.update_ops.specs.ApplyFaults.{Fails, Gives};
ghost use Rattle.update_ops.specs.Ops.{effect_shown, write_of};
ghost use Rattle.update_ops.specs.Steps.{change_of_met, change_of_start};
ghost use Rattle.update_ops.specs.View.{change_of};

use crate::change::Update;
use crate::edits::{changed, is_too_large};
use crate::fault::ApplyFault;
use crate::statement::{Op, Start};
use bson_values::{Document, Memory};
use match_expr::{Expr, holds};
use std::alloc::Global;
use value_compare::{Key, KeyFault, Reply, key_of};

/// The effect of a statement, and its outcome.
#[derive(Drop)]
pub struct Applied {
    /// The document that exists after it, if any.
    pub after: Option<Document>,
    /// The outcome of the statement.
    pub reply: Reply,
}

// The outcome of a statement that matched `n` documents, and changed `modified`.
fn told(after: Option<Document>, n: u32, modified: u32, upserted: Option<Key>) -> Applied
    ensures effect { effect_shown result ≡ record { after = after; count = n; modified = modified; upserted = upserted } }
    ensures code { result.reply.code ≡ pos 0 }
{
    let reply = Reply {
        n,
        modified,
        upserted,
        code: 0,
    };
    Applied { after, reply }
}

// The document is unchanged.
fn untouched(before: Option<&Document>) -> Result<Applied, ApplyFault>
    ensures gives { Gives effect_shown result (Ok (unmet (option_map (λ d. d.now) before.entry))) }
    ensures code { IfOk result (λ a. a.reply.code ≡ pos 0) }
{
    match before {
        Some(document) => Ok(told(Some(document.copy()?), 0, 0, None)),
        None => Ok(told(None, 0, 0, None)),
    }
}

// The effect of an insert.
fn insert(document: &Document, before: Option<&Document>) -> Result<Applied, ApplyFault>
    ensures gives { Gives effect_shown result (effect_of (insert_write document.now) (option_map (λ d. d.now) before.entry)) }
    ensures code { IfOk result (λ a. a.reply.code ≡ pos 0) }
{
    if before.is_some() {
        return Err(ApplyFault::Duplicate);
    }
    if is_too_large(document) {
        return Err(ApplyFault::TooLarge);
    }
    Ok(told(Some(document.copy()?), 1, 0, None))
}

// Returns how many of the one document were changed: none where it is the same data.
#[tactic(auto, using(crate::proofs::Told::changed_count))]
fn count_changed(before: &Document, after: &Document) -> u32
    requires { is_too_large after.now ≡ false }
    ensures { result ≡ (updated before.now after.now).modified }
{
    let _fields = before.fields();
    let _others = after.fields();
    if after.same_data(before) { 0 } else { 1 }
}

// The effect of a change of a document that matches the filter.
#[tactic(auto, using(crate::proofs::Told::not_large))]
fn change_met(alloc: Global, change: &Update, before: &Document) -> Result<Applied, ApplyFault>
    ensures gives { Gives effect_shown result (change_of_met (change_of change.now) before.now) }
    ensures code { IfOk result (λ a. a.reply.code ≡ pos 0) }
{
    let after = changed(alloc, change, before)?;
    let modified = count_changed(before, &after);
    Ok(told(Some(after), 1, modified, None))
}

// The effect of an update on a document that does not match the filter.
fn not_met(upsert: &Option<Start>, before: &Document) -> Result<Applied, ApplyFault>
    ensures gives { Gives effect_shown result (not_met upsert.now before.now) }
    ensures code { IfOk result (λ a. a.reply.code ≡ pos 0) }
{
    if upsert.is_some() {
        Err(ApplyFault::Duplicate)
    } else {
        untouched(Some(before))
    }
}

// Returns the key of a document that has one, or `Memory` if memory runs out.
#[tactic(auto, using(crate::proofs::Told::key_is, crate::proofs::Told::never_faulty))]
fn kept_key(alloc: Global, document: &Document) -> Result<Key, Memory>
    requires { is_ok (valid_key document.now) ≡ true }
    ensures { IfOk result (λ k. key_of document.now ≡ Some k) }
{
    match key_of(alloc, document) {
        Ok(key) => Ok(key),
        Err(KeyFault::Memory) => Err(Memory),
        Err(KeyFault::Absent) => unreachable!(),
        Err(KeyFault::Kind) => unreachable!(),
    }
}

// The effect of an upsert where there is no document.
#[tactic(auto, using(crate::proofs::Told::stays_keyed))]
fn upsert(alloc: Global, change: &Update, start: &Start) -> Result<Applied, ApplyFault>
    ensures gives { Gives effect_shown result (change_of_start (change_of change.now) start.now) }
    ensures code { IfOk result (λ a. a.reply.code ≡ pos 0) }
{
    let after = changed(alloc, change, start.document())?;
    let key = kept_key(alloc, &after)?;
    Ok(told(Some(after), 1, 0, Some(key)))
}

// The effect of an update.
fn update_or_upsert(
    alloc: Global,
    filter: &Expr,
    change: &Update,
    start: &Option<Start>,
    before: Option<&Document>,
) -> Result<Applied, ApplyFault>
    ensures gives { Gives effect_shown result (effect_of (update_write filter.now (change_of change.now) start.now) (option_map (λ d. d.now) before.entry)) }
    ensures code { IfOk result (λ a. a.reply.code ≡ pos 0) }
{
    if let Some(before) = before {
        return if holds(filter, before) {
            change_met(alloc, change, before)
        } else {
            not_met(start, before)
        };
    }
    match start {
        Some(start) => upsert(alloc, change, start),
        None => untouched(None),
    }
}

// The effect of a delete.
fn delete(filter: &Expr, before: Option<&Document>) -> Result<Applied, ApplyFault>
    ensures gives { Gives effect_shown result (effect_of (delete_write filter.now) (option_map (λ d. d.now) before.entry)) }
    ensures code { IfOk result (λ a. a.reply.code ≡ pos 0) }
{
    match before {
        Some(document) => {
            if holds(filter, document) {
                Ok(told(None, 1, 0, None))
            } else {
                untouched(before)
            }
        }
        None => untouched(None),
    }
}

/// Applies a statement to the document under its key, which is `before`, if there is one. Returns the document that exists after it, and the outcome of the
/// statement. Returns `Duplicate` where there is a document that may not be changed, the first fault of the change in the order of its edits (`NotDocument`,
/// `NotNumber`, `Overflow`, `Immutable`), `TooLarge` where there is no such fault and the result is too large, and `Memory` if memory runs out.
pub fn apply(alloc: Global, op: &Op, before: Option<&Document>) -> Result<Applied, ApplyFault>
    // What is returned is the effect of the statement, without an error.
    ensures effect { IfOk result (λ a. effect_of (write_of op.now) (option_map (λ d. d.now) before.entry) ≡ Ok (effect_shown a)) }
    ensures code { IfOk result (λ a. a.reply.code ≡ pos 0) }
    // A fault is the statement's, unless memory runs out.
    ensures fault { IfErr result (λ e. Fails e (effect_of (write_of op.now) (option_map (λ d. d.now) before.entry))) }
{
    match op {
        Op::Insert(document) => insert(document, before),
        Op::Update {
            filter,
            change,
            upsert,
        } => update_or_upsert(alloc, filter, change, upsert, before),
        Op::Delete { filter } => delete(filter, before),
    }
}
