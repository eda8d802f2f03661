//! Which shards have what statements write.

ghost use Rattle.std.specs.Prelude.{◌≡◌, Option, Some, IfOk, true};
ghost use Rattle.std.specs.Option.{option_map};
ghost use Rattle.bson_model.specs.Tree.{Datum};
ghost use Rattle.bson_values.specs.View.{datum_of};
ghost use Rattle.command_model.specs.Statements.{key_asked_by};
ghost use Rattle.command_model.specs.Writes.{ClientNumber};
ghost use Rattle.base_model.specs.Identities as identities;
ghost use Rattle.history_model.specs.History.{key_written};
ghost use Rattle.node_model.specs.RouterRequests as requested;
ghost use Rattle.protocol_model.specs.Statements as protocol;
ghost use Rattle.protocol_model.specs.Statements.{statement_view};
ghost use Rattle.statement_views.specs.Views.{operation_view};
ghost use Rattle.value_model.specs.Keys.{is_key};
ghost use Rattle.write_runs.specs.Runs.{all_tries_view};

use crate::tries::{reaches, tries_at};
use bson_values::{Memory, Value};
use chunk_table::Table;
use cluster_base::NodeId;
use match_expr::key_asked_in;
use protocol_model::{NewChange, Operation, Statement, Try};
use std::alloc::Global;
use value_compare::{Key, OpWords, key_of};

/// Returns the value that operands want the key of their document to equal; none where they want none.
fn key_asked(words: &OpWords) -> Option<&Value>
    ensures { option_map (λ v. datum_of v.now) result ≡ key_asked_by (operation_view words.now) }
{
    match words {
        OpWords::Insert(document) => document.get("_id"),
        OpWords::Update { filter, .. } => key_asked_in(filter),
        OpWords::Delete { filter } => key_asked_in(filter),
    }
}

/// Returns the key that a change writes, or `Memory` if memory runs out.
#[tactic(auto, using(crate::proofs::Keys::key_by_words))]
fn key_changed(change: &NewChange) -> Result<Key, Memory>
    ensures { IfOk result (λ key. key_written change.now ≡ Some key) }
{
    let Some(value) = key_asked(change.words()) else {
        // A change that can be stored has a key.
        return Err(Memory);
    };
    match Key::of(value.copy()?) {
        Ok(key) => Ok(key),
        Err(_) => Err(Memory),
    }
}

/// Returns the key that an operation writes, or `Memory` if memory runs out.
#[tactic(auto, using(crate::proofs::Keys::key_by_document))]
fn key_of_operation(alloc: Global, operation: &Operation) -> Result<Key, Memory>
    ensures { IfOk result (λ key. key_written (protocol.operation_view operation.now) ≡ Some key) }
{
    match operation {
        Operation::Insert(document) => match key_of(alloc, document.document()) {
            Ok(key) => Ok(key),
            // A document that can be stored has a key.
            Err(_) => Err(Memory),
        },
        Operation::Change(change) => key_changed(change),
    }
}

/// An operation writes a key, since it can be stored. For proofs alone: it does nothing.
#[tactic(auto, using(crate::proofs::Keys::key_kept))]
fn writes_key(operation: &Operation)
    ensures { (key : Datum) × (key_written (protocol.operation_view operation.now) ≡ Some key) × (is_key key ≡ true) }
{
    match operation {
        Operation::Insert(document) => {
            document.document();
        }
        Operation::Change(change) => {
            change.words();
        }
    }
}

/// Returns the shard that has the key that a statement writes: that of all keys, or else that of the chunk with the key. Returns
/// `Memory` if memory runs out.
#[tactic(auto, using(crate::proofs::Keys::owner_by_key, crate::proofs::Keys::owner_by_sole))]
fn owner_of_statement(alloc: Global, table: &Table, statement: &Statement) -> Result<NodeId, Memory>
    ensures { (given : Option ClientNumber) (id : identities.RequestId) → IfOk result (λ shard.
        requested.owner_of_statement table.now (statement_view given id statement.now) ≡ Some shard.0) }
{
    if let Some(shard) = table.sole_owner() {
        writes_key(&statement.operation);
        return Ok(shard);
    }
    let key = key_of_operation(alloc, &statement.operation)?;
    Ok(table.owner_now(&key))
}

/// Returns the shard that a statement can be sent to by a table: the one that has the key that it writes, where the table is not older than what its last try
/// met. Returns `Memory` if memory runs out.
pub(crate) fn shard_for(
    alloc: Global,
    table: &Table,
    tries: &[Vec<Try>],
    statement: &Statement,
) -> Result<Option<NodeId>, Memory>
    ensures { (given : Option ClientNumber) (id : identities.RequestId) → IfOk result (λ shard.
        requested.shard_for table.now (all_tries_view tries.now) (statement_view given id statement.now) ≡ option_map (λ s. s.0) shard) }
{
    if !reaches(table, tries_at(tries, statement.index)) {
        return Ok(None);
    }
    Ok(Some(owner_of_statement(alloc, table, statement)?))
}
