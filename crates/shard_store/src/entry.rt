//! Entries that are planned.

ghost use Rattle.std.specs.Prelude.{◌≡◌};
ghost use Rattle.shard_store.specs.Outcomes.{statement_of};

use crate::outcome::EntryOutcome;
use bson_values::{Document, Memory};
use cluster_base::{RequestId, Session, Stmt, Time};
use command_replies::ClientNumber;
use std::alloc::Global;
use std::sync::Arc;
use value_compare::{Key, OpWords};

/// What a statement does, by the operands of the client, shared with all others that have them.
#[derive(Drop)]
pub enum Words {
    /// Inserts the document.
    Insert(Arc<Document, Global>),
    /// Does what the operands say: mostly an update or a delete, since the document of an insert is copied.
    Change(Arc<OpWords, Global>),
}

/// What a statement does, by operands that are borrowed: only those of an entry are shared.
#[derive(Clone, Copy)]
pub enum LentWords<'a> {
    /// Inserts the document.
    Insert(&'a Arc<Document, Global>),
    /// Does what the operands say.
    Change(&'a Arc<OpWords, Global>),
}

impl LentWords<'_> {
    ghost use Rattle.std.specs.Prelude.{◌≡◌, IfOk};
    ghost use Rattle.shard_store.specs.Entries.{operation_in, operation_of};

    // Returns the same operands, shared. Returns `Memory` if memory runs out.
    pub(crate) fn share(self) -> Result<Words, Memory>
        ensures { IfOk result (λ words. operation_of words ≡ operation_in self.entry) }
    {
        match self {
            LentWords::Insert(document) => Ok(Words::Insert(Arc::try_clone(document)?)),
            LentWords::Change(words) => Ok(Words::Change(Arc::try_clone(words)?)),
        }
    }
}

/// What a statement leaves under its key.
#[derive(Drop)]
pub enum Left {
    /// What was stored there.
    Same,
    /// This document, or none.
    Other(Option<Arc<Document, Global>>),
}

/// An entry of a statement, but for its namespace and its shard.
#[derive(Drop)]
pub struct Planned {
    /// Which statement it is.
    pub statement: Stmt,
    /// When it happens.
    pub time: Time,
    /// What the statement does.
    pub words: Words,
    /// The key that it acts under.
    pub key: Key,
    /// What it leaves there.
    pub left: Left,
    /// Its outcome.
    pub outcome: EntryOutcome,
}

/// Returns the number of the statement with this index of a request: the client's, or where that gave none, one of the router's own session for
/// the request.
pub fn statement_number(number: Option<ClientNumber>, id: RequestId, index: u32) -> Stmt
    ensures { result ≡ statement_of number id index }
{
    match number {
        Some(number) => Stmt {
            session: Session::Client(number.session),
            txn: number.transaction,
            index,
        },
        None => Stmt {
            session: Session::Router {
                node: id.router,
                life: id.life,
                request: id.count,
            },
            txn: 0,
            index,
        },
    }
}
