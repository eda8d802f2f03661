//! Outcomes of statements that were served.

ghost use Rattle.std.specs.Prelude.{◌≡◌, ◌++◌, ◌∷◌, [], IfOk, OnOk, Some};
ghost use Rattle.std.specs.Arc.{arc_value};
ghost use Rattle.std.specs.Option.{option_map};
ghost use Rattle.reply_model.specs.Right.{ends};
ghost use Rattle.protocol_model.specs.Statements as messages;
ghost use Rattle.protocol_model.specs.Statements.{answer_view, done_view};
ghost use Rattle.shard_requests.specs.Results.{record_in};
ghost use Rattle.shard_store.specs.Outcomes as outcomes;
ghost use Rattle.shard_store.specs.Outcomes.{outcome_view};

use bson_values::{Blob, Memory};
use protocol_model::{Done, DoneList, Outcome, StatementOutcome as ToldAnswer};
use shard_store::{EntryOutcome, EntryResult, StatementOutcome};
use std::alloc::Global;
use std::sync::Arc;
use value_compare::{Key, Reply};

/// A statement that was served: its outcome, and the record of the entry that it makes, if it makes one.
#[derive(Drop)]
pub struct StatementResult {
    pub done: Done,
    pub record: Option<Blob>,
}

/// The outcomes of the statements that were served, and the records of their entries.
#[derive(Drop)]
pub struct WriteReply {
    pub dones: DoneList,
    pub records: Vec<Blob>,
}

// Returns the key, to be shared, if there is one. Returns `Memory` if memory runs out.
fn share_key(alloc: Global, key: Option<Key>) -> Result<Option<Arc<Key, Global>>, Memory>
    ensures { IfOk result (λ shared. option_map (λ k. arc_value k) shared ≡ key) }
{
    match key {
        Some(key) => Ok(Some(Arc::new(alloc, key)?)),
        None => Ok(None),
    }
}

// Returns the outcome of an entry as a message has it, or `Memory` if memory runs out.
fn outcome_of(alloc: Global, outcome: EntryOutcome) -> Result<Outcome, Memory>
    ensures { IfOk result (λ o. messages.outcome_view o ≡ outcome_view outcome) }
{
    let error = outcome.error();
    let Reply {
        n,
        modified,
        upserted,
        ..
    } = outcome.into_reply();
    let upserted = share_key(alloc, upserted)?;
    Ok(Outcome {
        count: n,
        modified,
        upserted,
        error,
    })
}

// Returns the outcome of a statement as a message has it, or `Memory` if memory runs out.
fn answer_of(alloc: Global, told: StatementOutcome) -> Result<ToldAnswer, Memory>
    ensures { IfOk result (λ a. answer_view a ≡ outcomes.answer_view told) }
{
    match told {
        StatementOutcome::WasDone(EntryResult { time, outcome }) => Ok(ToldAnswer::WasDone {
            time,
            outcome: outcome_of(alloc, outcome)?,
        }),
        StatementOutcome::Older(greatest) => Ok(ToldAnswer::Older(greatest)),
    }
}

/// Returns the outcome of the statement with this index as a message has it, or `Memory` if memory runs out.
pub fn done_of(alloc: Global, index: u32, told: StatementOutcome) -> Result<Done, Memory>
    ensures { IfOk result (λ d. done_view d ≡ outcomes.done_view index told) }
{
    let answer = answer_of(alloc, told)?;
    Ok(Done { index, answer })
}

/// Returns whether a statement with this outcome ends an ordered command.
pub fn ends(ordered: bool, done: &Done) -> bool
    ensures { result ≡ ends ordered (done_view done.now) }
{
    ordered && done.answer.fails()
}

impl WriteReply {
    /// Returns the list of no statement.
    pub fn new(alloc: Global) -> WriteReply
        ensures dones { result.dones.items ≡ [] }
        ensures records { result.records.items ≡ [] }
    {
        WriteReply {
            dones: Vec::new(alloc),
            records: Vec::new(alloc),
        }
    }

    /// Appends one. Returns `Memory` if memory runs out.
    pub fn push(&mut self, served: StatementResult) -> Result<(), Memory>
        ensures dones { OnOk result (self.new.dones.items ≡ self.old.dones.items ++ served.done ∷ []) }
        ensures records { OnOk result (self.new.records.items ≡ self.old.records.items ++ record_in (Some served)) }
    {
        let StatementResult { done, record } = served;
        self.dones.push(done)?;
        if let Some(record) = record {
            self.records.push(record)?;
        }
        Ok(())
    }
}
