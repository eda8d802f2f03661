//! The records of entries and of tables.

ghost use Rattle.std.specs.Prelude.{◌≡◌, ◌∷◌, [], IfOk};
ghost use Rattle.command_model.specs.CommandSizes.{IsKeepable};
ghost use Rattle.protocol_model.specs.Statements.{operation_view};
ghost use Rattle.shard_requests.specs.EntryRecords.{entry_record_of};
ghost use Rattle.shard_records.specs.Meanings.{operation_lent};
ghost use Rattle.record_model.specs.RecordFormat.{spelled};
ghost use Rattle.shard_records.specs.Readable.{IsReadable};
ghost use Rattle.record_model.specs.Records.{ceiling_record, table_record};
ghost use Rattle.shard_records.specs.Sizes.{IsWritableKey};
ghost use Rattle.shard_store.specs.Entries.{operation_in};
ghost use Rattle.shard_store.specs.Outcomes.{outcome_view};

use bson_values::{Blob, Document, Memory};
use chunk_table::Table;
use cluster_base::{Namespace, Stmt, Time};
use protocol_model::Operation;
use shard_records::{WordsRef, write_ceiling, write_entry, write_table};
use shard_store::{EntryResult, LentWords};
use std::alloc::Global;

// Returns what a statement does, borrowed; it can be stored.
fn words_of(operation: &Operation) -> WordsRef<'_>
    ensures words { operation_lent result ≡ operation_view operation.now }
    ensures keepable { IsKeepable (operation_view operation.now) }
{
    match operation {
        Operation::Insert(document) => {
            let document: &Document = document.document();
            WordsRef::Insert(document)
        }
        Operation::Change(change) => WordsRef::of(change.words()),
    }
}

/// Returns what a statement does, borrowed; it can be stored.
pub fn lend_words(operation: &Operation) -> LentWords<'_>
    ensures words { operation_in result ≡ operation_view operation.now }
    ensures keepable { IsKeepable (operation_view operation.now) }
{
    match operation {
        Operation::Insert(document) => LentWords::Insert(document.document()),
        Operation::Change(change) => LentWords::Change(change.words()),
    }
}

/// Returns the record of the entry of a statement with this outcome, or `Memory` if memory runs out.
pub fn entry_bytes(
    alloc: Global,
    told: &EntryResult,
    namespace: &Namespace,
    statement: &Stmt,
    operation: &Operation,
) -> Result<Blob, Memory>
    requires key { IsWritableKey (outcome_view told.now.outcome).upserted }
    ensures { IfOk result (λ b. (b ≡ spelled 1 (entry_record_of told.now namespace.now statement.now (operation_view operation.now)))
        × IsReadable (entry_record_of told.now namespace.now statement.now (operation_view operation.now))) }
{
    let mut bytes = Vec::new(alloc);
    let words = words_of(operation);
    let reply = told.outcome.reply();
    write_entry(told.time, namespace, statement, &words, reply, &mut bytes)?;
    Blob::of(alloc, &bytes)
}

// Returns the record of a table, or `Memory` if memory runs out.
fn table_bytes(alloc: Global, table: &Table) -> Result<Blob, Memory>
    ensures { IfOk result (λ b. (b ≡ spelled 1 (table_record table.now)) × IsReadable (table_record table.now)) }
{
    let mut bytes = Vec::new(alloc);
    write_table(table, &mut bytes)?;
    Blob::of(alloc, &bytes)
}

/// Returns the records of a step that stores a table, or `Memory` if memory runs out.
pub fn table_records(alloc: Global, table: &Table) -> Result<Vec<Blob>, Memory>
    ensures records { IfOk result (λ records. records.items ≡ spelled 1 (table_record table.now) ∷ []) }
    ensures readable { IfOk result (λ records. IsReadable (table_record table.now)) }
{
    let mut records = Vec::new(alloc);
    records.push(table_bytes(alloc, table)?)?;
    Ok(records)
}

// Returns the record of a ceiling, or `Memory` if memory runs out.
fn ceiling_bytes(alloc: Global, at: Time) -> Result<Blob, Memory>
    ensures { IfOk result (λ b. (b ≡ spelled 1 (ceiling_record at.0)) × IsReadable (ceiling_record at.0)) }
{
    let mut bytes = Vec::new(alloc);
    write_ceiling(at, &mut bytes)?;
    Blob::of(alloc, &bytes)
}

/// Returns the records of a step that stores the time of a read as a ceiling, or `Memory` if memory runs out.
pub fn ceiling_records(alloc: Global, at: Time) -> Result<Vec<Blob>, Memory>
    ensures records { IfOk result (λ records. records.items ≡ spelled 1 (ceiling_record at.0) ∷ []) }
    ensures readable { IfOk result (λ records. IsReadable (ceiling_record at.0)) }
{
    let mut records = Vec::new(alloc);
    records.push(ceiling_bytes(alloc, at)?)?;
    Ok(records)
}
