//! Statements of writes, and their outcomes (MongoDB manual, "insert", "update", "delete").

ghost use Rattle.std.specs.Prelude.{◌≡◌, IfOk, Option, is_some};
ghost use Rattle.command_model.specs.Writes.{ClientNumber};
ghost use Rattle.base_model.specs.Identities.{RequestId};
ghost use Rattle.reply_model.specs.Outcomes.{refusal_in};
ghost use Rattle.protocol_model.specs.Statements.{answer_view, done_view, operation_view, outcome_view, statement_view};

use crate::change::NewChange;
use crate::document::NewDocument;
use bson_values::Memory;
use cluster_base::{Code, Time};
use command_replies::Refusal;
use std::alloc::Global;
use std::sync::Arc;
use value_compare::Key;

/// The operation of a statement.
#[derive(Drop)]
pub enum Operation {
    /// Inserts a document.
    Insert(NewDocument),
    /// Updates a document, upserts one, or deletes one.
    Change(NewChange),
}

impl Operation {
    /// Returns a copy, which shares its documents, or `Memory` if memory runs out.
    pub fn copy(&self) -> Result<Operation, Memory>
        ensures { IfOk result (λ operation. operation_view operation ≡ operation_view self.now) }
    {
        match self {
            Operation::Insert(document) => Ok(Operation::Insert(document.copy()?)),
            Operation::Change(change) => Ok(Operation::Change(change.copy()?)),
        }
    }
}

/// A statement, with its index in its command.
#[derive(Drop)]
pub struct Statement {
    pub index: u32,
    pub operation: Operation,
}

impl Statement {
    /// Returns a copy of the statement, which shares its documents, or `Memory` if memory runs out.
    pub fn copy(&self) -> Result<Statement, Memory>
        ensures { (given : Option ClientNumber) (id : RequestId) →
            IfOk result (λ statement. statement_view given id statement ≡ statement_view given id self.now) }
    {
        let operation = self.operation.copy()?;
        Ok(Statement {
            index: self.index,
            operation,
        })
    }
}

/// The outcome of an entry.
#[derive(Drop)]
pub struct Outcome {
    /// How many documents it matched or inserted.
    pub count: u32,
    /// How many documents it changed.
    pub modified: u32,
    /// The key of the document that an upsert inserted.
    pub upserted: Option<Arc<Key, Global>>,
    /// Its error, if it has one.
    pub error: Option<Code>,
}

impl Outcome {
    /// Returns a copy, or `Memory` if memory runs out.
    fn copy(&self) -> Result<Outcome, Memory>
        ensures { IfOk result (λ outcome. outcome_view outcome ≡ outcome_view self.now) }
    {
        let upserted = match &self.upserted {
            Some(key) => Some(Arc::try_clone(key)?),
            None => None,
        };
        Ok(Outcome {
            count: self.count,
            modified: self.modified,
            upserted,
            error: self.error,
        })
    }
}

/// The outcome of a statement.
#[derive(Drop)]
pub enum StatementOutcome {
    /// It was applied.
    WasDone {
        /// The time of its entry.
        time: Time,
        /// The outcome of the entry.
        outcome: Outcome,
    },
    /// It was not applied: its session has this greater transaction.
    Older(i64),
    /// It was not applied, or it was given up. The reason is shared.
    WasRefused(Arc<Refusal, Global>),
}

impl StatementOutcome {
    /// Returns whether it is an error.
    pub fn fails(&self) -> bool
        ensures { result ≡ is_some (refusal_in (answer_view self.now)) }
    {
        match self {
            StatementOutcome::WasDone { outcome, .. } => outcome.error.is_some(),
            StatementOutcome::Older(_) | StatementOutcome::WasRefused(_) => true,
        }
    }

    /// Returns a copy, which shares a reason, or `Memory` if memory runs out.
    pub fn copy(&self) -> Result<StatementOutcome, Memory>
        ensures { IfOk result (λ answer. answer_view answer ≡ answer_view self.now) }
    {
        match self {
            StatementOutcome::WasDone { time, outcome } => Ok(StatementOutcome::WasDone {
                time: *time,
                outcome: outcome.copy()?,
            }),
            StatementOutcome::Older(greatest) => Ok(StatementOutcome::Older(*greatest)),
            StatementOutcome::WasRefused(refusal) => {
                Ok(StatementOutcome::WasRefused(Arc::try_clone(refusal)?))
            }
        }
    }
}

/// The outcome of the statement with an index in its command.
#[derive(Drop)]
pub struct Done {
    pub index: u32,
    pub answer: StatementOutcome,
}

impl Done {
    /// Returns a copy, or `Memory` if memory runs out.
    pub fn copy(&self) -> Result<Done, Memory>
        ensures { IfOk result (λ done. done_view done ≡ done_view self.now) }
    {
        let answer = self.answer.copy()?;
        Ok(Done {
            index: self.index,
            answer,
        })
    }
}
