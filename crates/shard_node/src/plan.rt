//! What a step of a shard comes to, before it is taken.

ghost use Rattle.std.specs.Prelude.{◌≡◌, ◌∷◌, [], map};
ghost use Rattle.protocol_model.specs.Messages.{letter_of};
ghost use Rattle.shard_node.specs.declared.plan.Change.TheVariants.{Nothing};

use bson_values::Blob;
use chunk_table::Table;
use cluster_base::{Namespace, Time};
use node_traits::MailList;
use protocol_model::Message;
use std::alloc::Global;
use std::sync::Arc;

/// How a shard changes beside its time.
#[derive(Drop)]
pub(crate) enum Change {
    /// Not at all.
    Nothing,
    /// The request waits for a table.
    Park(Message),
    /// The table is known, and what waited for it waits no longer.
    Learn(Arc<Table, Global>),
    /// What waits for the table of the collection waits no longer.
    Release(Namespace),
    /// The time of a read is a ceiling from now on.
    Ceil(Time),
    /// The entries are made in the collection.
    Write {
        namespace: Namespace,
        entries: shard_store::EntryPlan,
    },
}

/// What a step will write and send, and what the shard will then be.
#[derive(Drop)]
pub(crate) struct StepPlan {
    pub(crate) time: Time,
    pub(crate) mail: MailList<Message>,
    pub(crate) records: Vec<Blob>,
    pub(crate) change: Change,
}

impl StepPlan {
    /// Returns the plan of nothing but the time.
    pub(crate) fn of_time(alloc: Global, time: Time) -> StepPlan
        ensures time { result.time ≡ time }
        ensures mail { map letter_of result.mail ≡ [] }
        ensures records { result.records.items ≡ [] }
        ensures change { result.change ≡ Nothing }
    {
        StepPlan {
            time,
            mail: MailList::new(alloc),
            records: Vec::new(alloc),
            change: Change::Nothing,
        }
    }

    /// Returns the plan of one message, and nothing else but the time.
    pub(crate) fn of_message(alloc: Global, time: Time, message: Message) -> StepPlan
        ensures time { result.time ≡ time }
        ensures mail { map letter_of result.mail ≡ letter_of message ∷ [] }
        ensures records { result.records.items ≡ [] }
        ensures change { result.change ≡ Nothing }
    {
        StepPlan {
            time,
            mail: MailList::of_one(alloc, message),
            records: Vec::new(alloc),
            change: Change::Nothing,
        }
    }

    /// Returns the plan of these messages, and nothing else but the time.
    pub(crate) fn of_mail(alloc: Global, time: Time, mail: MailList<Message>) -> StepPlan
        ensures time { result.time ≡ time }
        ensures mail { map letter_of result.mail ≡ map letter_of mail }
        ensures records { result.records.items ≡ [] }
        ensures change { result.change ≡ Nothing }
    {
        StepPlan {
            time,
            mail,
            records: Vec::new(alloc),
            change: Change::Nothing,
        }
    }
}
