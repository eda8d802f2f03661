//! Outcomes of statements (MongoDB manual, "insert", "update", "delete").

ghost use Rattle.std.specs.Prelude.{◌≡◌, IfOk, None};
ghost use Rattle.std.specs.Option.{option_map};
ghost use Rattle.cluster_base.specs.Codes.{meaning_of};
ghost use Rattle.node_model.specs.History.{done, fails_with};
ghost use Rattle.shard_store.specs.Faults.{code_told, error_view};

use crate::fault::{WriteFault, code_of};
use bson_values::Memory;
use cluster_base::{Code, Time};
use value_compare::{Key, Reply};

/// The outcome of a statement: how many documents it inserted, matched or removed, how many it changed, the key that it inserted having matched none,
/// and why it changed nothing.
#[derive(Drop)]
pub struct EntryOutcome {
    // Its code is that of the fault, or 0.
    reply: Reply,
    fault: Option<WriteFault>,
    ghost told: { reply.code ≡ code_told fault },
}

/// A statement was done at a time, with this outcome.
#[derive(Drop)]
pub struct EntryResult {
    /// The time of its entry.
    pub time: Time,
    /// Its outcome.
    pub outcome: EntryOutcome,
}

/// The outcome of a statement.
#[derive(Drop)]
pub enum StatementOutcome {
    /// It was done.
    WasDone(EntryResult),
    /// It was not done: its session has this greater transaction.
    Older(i64),
}

// Returns a copy of a key, if there is one. Returns `Memory` if memory runs out.
fn copy_key(key: &Option<Key>) -> Result<Option<Key>, Memory>
    ensures { IfOk result (λ copy. copy ≡ key.now) }
{
    match key {
        Some(key) => Ok(Some(key.copy()?)),
        None => Ok(None),
    }
}

impl EntryOutcome {
    ghost use Rattle.shard_store.specs.Outcomes.{outcome_view, reply_view};

    // So many documents were inserted, matched or removed, so many of them changed, this key was inserted, and this is the fault.
    fn new(n: u32, modified: u32, upserted: Option<Key>, fault: Option<WriteFault>) -> EntryOutcome
        ensures { outcome_view result ≡ record { count = n; modified = modified; upserted = upserted; error = option_map error_view fault } }
    {
        let reply = Reply {
            n,
            modified,
            upserted,
            code: code_of(fault),
        };
        EntryOutcome { reply, fault }
    }

    // Returns the outcome of an insert: one document was inserted.
    pub(crate) fn inserted() -> EntryOutcome
        ensures { outcome_view result ≡ done }
    {
        EntryOutcome::new(1, 0, None, None)
    }

    // Returns the outcome of a statement that fails: nothing was changed.
    pub(crate) fn refused(fault: WriteFault) -> EntryOutcome
        ensures { outcome_view result ≡ fails_with (error_view fault) }
    {
        EntryOutcome::new(0, 0, None, Some(fault))
    }

    // Returns the outcome of a reply without a fault.
    pub(crate) fn done(reply: Reply) -> EntryOutcome
        ensures { outcome_view result ≡ record { count = reply.n; modified = reply.modified; upserted = reply.upserted; error = None } }
    {
        let Reply {
            n,
            modified,
            upserted,
            ..
        } = reply;
        EntryOutcome::new(n, modified, upserted, None)
    }

    // Returns the outcome of a reply, or `Memory` if memory runs out.
    pub(crate) fn of(reply: &Reply) -> Result<EntryOutcome, Memory>
        ensures { (outcome : EntryOutcome) → reply.now ≡ reply_view (outcome_view outcome) →
            IfOk result (λ told. outcome_view told ≡ outcome_view outcome) }
    {
        let fault = WriteFault::told(reply.code);
        let upserted = copy_key(&reply.upserted)?;
        Ok(EntryOutcome::new(reply.n, reply.modified, upserted, fault))
    }

    // Returns a copy of it, or `Memory` if memory runs out.
    pub(crate) fn copy(&self) -> Result<EntryOutcome, Memory>
        ensures { IfOk result (λ outcome. outcome_view outcome ≡ outcome_view self.now) }
    {
        let reply = &self.reply;
        let upserted = copy_key(&reply.upserted)?;
        Ok(EntryOutcome::new(reply.n, reply.modified, upserted, self.fault))
    }

    /// Returns the error of it, if there is one.
    pub fn error(&self) -> Option<Code>
        ensures { option_map meaning_of result ≡ (outcome_view self.now).error }
    {
        match self.fault {
            Some(fault) => Some(fault.error()),
            None => None,
        }
    }

    /// Returns the reply with it.
    pub fn reply(&self) -> &Reply
        ensures { result.now ≡ reply_view (outcome_view self.now) }
    {
        &self.reply
    }

    /// Returns the reply with it; nothing else is left.
    pub fn into_reply(self) -> Reply
        ensures { result ≡ reply_view (outcome_view self) }
    {
        self.reply
    }
}
