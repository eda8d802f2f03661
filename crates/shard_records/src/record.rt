//! The records of a journal as values.

ghost use Rattle.std.specs.Prelude.{◌≡◌};
ghost use Rattle.statement_views.specs.Views.{operation_view};
ghost use Rattle.shard_records.specs.Meanings.{operation_lent};

use crate::changes::{CommitChange, PurgeChange, ResolveChange, SplitChange};
use crate::moves::{
    Deletion, MoveEnd, MoveStart, ReceiveDone, ReceiveStart, ReceivedBatch, SectionStart,
};
use bson_values::Document;
use chunk_table::Table;
use cluster_base::{Namespace, RequestId, Stmt, Time};
use value_compare::{OpWords, Reply};

/// What a node stores.
#[derive(Drop)]
pub enum Record {
    /// A shard's table of a collection, whole.
    Table(Table),
    /// One write.
    Entry {
        /// When it happened.
        time: Time,
        /// The collection that it is of.
        namespace: Namespace,
        /// The statement that requested it.
        statement: Stmt,
        /// What it does.
        op: OpWords,
        /// Its reply.
        reply: Reply,
    },
    /// A shard was read at this time: its later entries are above it.
    Ceiling(Time),
    /// The history of a shard below this time is no longer stored.
    Floor(Time),
    /// The donor begins to give a chunk.
    MoveStart(MoveStart),
    /// The donor takes no write of the chunk from a time on.
    Section(SectionStart),
    /// The donor's part in a move ends.
    MoveEnd(MoveEnd),
    /// The recipient knows that the donor's part in this move ended.
    Released(RequestId),
    /// The recipient begins to take a chunk.
    ReceiveStart(ReceiveStart),
    /// The recipient stores a batch of documents.
    Batch(ReceivedBatch),
    /// The recipient has all documents, and what the donor stores of sessions.
    ReceiveDone(ReceiveDone),
    /// The recipient's part in a move ends.
    ReceiveEnd(MoveEnd),
    /// What a shard stores of a range below a time is deleted.
    Deleted(Deletion),
    /// A collection begins.
    Create {
        /// Its name.
        namespace: Namespace,
        /// Which of the collections of that name it is.
        epoch: u64,
        /// When it begins.
        at: Time,
    },
    /// A chunk is split.
    Split(SplitChange),
    /// A move of a chunk is committed.
    Commit(CommitChange),
    /// A move is not committed, and never will be.
    Resolve(ResolveChange),
    /// Owners of chunks are forgotten.
    Purge(PurgeChange),
    /// The catalogue returned this time: its later changes are above it.
    CatalogueCeiling(Time),
    /// A life of a router begins, with this number, which counts from 1.
    Life(u64),
    /// A router takes a block of cursor numbers, with this number.
    Block(u64),
}

/// What one write statement does, borrowed: so that a document is written where it is.
#[derive(Clone, Copy)]
pub enum WordsRef<'a> {
    /// Inserts a document.
    Insert(&'a Document),
    /// Changes the first document that matches the filter; with `upsert`, inserts one where none does.
    Update {
        filter: &'a Document,
        change: &'a Document,
        upsert: bool,
    },
    /// Deletes the first document that matches the filter.
    Delete {
        filter: &'a Document,
    },
}

impl<'a> WordsRef<'a> {
    /// Returns these operands, borrowed.
    pub fn of(op: &'a OpWords) -> WordsRef<'a>
        ensures { operation_lent result ≡ operation_view op.now }
    {
        match op {
            OpWords::Insert(document) => WordsRef::Insert(document),
            OpWords::Update {
                filter,
                change,
                upsert,
            } => WordsRef::Update {
                filter,
                change,
                upsert: *upsert,
            },
            OpWords::Delete { filter } => WordsRef::Delete { filter },
        }
    }
}
