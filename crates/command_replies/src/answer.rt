//! The answers to requests.

ghost use Rattle.std.specs.Prelude.{◌≡◌, ◌<◌, Some, None, nat_lt, if◌then◌else◌};
ghost use Rattle.command_model.specs.CommandLimits.{most_statements};

use crate::refusal::Refusal;
use bson_values::Document;
use cluster_base::{Namespace, Time};
use std::alloc::Global;
use std::marker::Model;
use std::sync::Arc;
use value_compare::Key;

/// The greatest number of statements of one command (MongoDB manual, "hello", `maxWriteBatchSize`).
pub const MOST_STATEMENTS: u32 = 100_000;

/// The index of a statement in its command, from 0, less than `MOST_STATEMENTS`.
#[derive(Debug, Drop)]
pub struct StatementIndex {
    index: u32,
}

impl Model for StatementIndex {
    ghost use Rattle.std.specs.Prelude.{ℕ, ◌<◌};
    ghost use Rattle.command_model.specs.CommandLimits.{most_statements};

    ghost Value = { ℕ };

    ghost view = { λ i. i.index };

    ghost invariant = { λ i. i.index < most_statements };
}

impl StatementIndex {
    /// Returns the index with that number, if a command can have such an index.
    pub fn of(index: u32) -> Option<StatementIndex>
        ensures { result ≡ (if nat_lt index most_statements then Some index else None) }
    {
        if index < MOST_STATEMENTS {
            Some(StatementIndex { index })
        } else {
            None
        }
    }

    /// Returns the number.
    pub fn number(&self) -> u32
        ensures number { result ≡ self.now }
        ensures small { self.now < most_statements }
    {
        self.index
    }
}

/// The error of one statement of a command, with its evidence (MongoDB manual, "insert", `writeErrors`).
#[derive(Debug, Drop)]
pub struct WriteError {
    pub index: StatementIndex,
    pub refusal: Refusal,
}

/// The kind of a write (MongoDB manual, "insert", "update", "delete").
#[derive(Clone, Copy, Debug, PartialEq, Eq)]
pub enum WriteKind {
    Insert,
    Update,
    Delete,
}

/// How a client numbers the statements of a write: by a transaction of its session, each with its index (MongoDB manual, "Retryable
/// Writes").
#[derive(Clone, Copy, Debug, PartialEq, Eq)]
pub struct ClientNumber {
    /// The identifier of the session.
    pub session: [u8; 16],
    /// The transaction, `txnNumber`.
    pub transaction: i64,
}

/// The key of the document that the statement with this index upserted (MongoDB manual, "update", `upserted`).
#[derive(Drop)]
pub struct Upserted {
    pub index: StatementIndex,
    pub key: Arc<Key, Global>,
}

/// Some of the documents that were read from a collection (MongoDB manual, "Cursor Batches").
#[derive(Drop)]
pub struct Batch {
    /// The cursor that has the others; 0 where there are none.
    pub cursor: i64,
    pub namespace: Namespace,
    pub documents: Vec<Arc<Document, Global>>,
    /// The time of the read.
    pub time: Time,
}

/// The answer to a request.
#[derive(Drop)]
pub enum Answer {
    /// To `hello`: the moment, in milliseconds since 1970.
    Hello {
        moment: u64,
    },
    /// To `isMaster`: the moment, and whether `helloOk` is shown.
    Legacy {
        moment: u64,
        hello_ok: bool,
    },
    /// To `ping` and `endSessions`.
    Done,
    /// To a write: how many documents were inserted, matched or deleted, how many were changed, the upserted keys, the errors, and the time of the operation.
    Write {
        kind: WriteKind,
        count: u32,
        modified: u32,
        upserted: Vec<Upserted>,
        errors: Vec<WriteError>,
        time: Time,
    },
    /// To `find` and `aggregate`.
    First(Batch),
    /// To `getMore`.
    Next(Batch),
    /// To `count`: the number of documents, and the time of the read.
    Count {
        count: u64,
        time: Time,
    },
    /// To `killCursors`: the cursors that were closed, and those that were not found.
    Killed {
        killed: Vec<i64>,
        missing: Vec<i64>,
    },
    /// To `shardCollection`: the collection, and the time of the reply.
    Sharded {
        namespace: Namespace,
        time: Time,
    },
    /// To `split`: the time of the reply.
    Changed {
        time: Time,
    },
    /// To a request that is refused.
    Refused(Refusal),
}
