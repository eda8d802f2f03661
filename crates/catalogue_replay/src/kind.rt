//! The records of a catalogue.

ghost use Rattle.std.specs.Prelude.{◌≡◌};
ghost use Rattle.shard_records.specs.Meanings.{record_view};
ghost use Rattle.catalogue_replay.specs.CatalogueParts.{IsKind, creates_at};
ghost use Rattle.catalogue_replay.specs.declared.kind.CatalogueRecord.TheVariants.{Other};

use chunk_catalogue::{Change, ChangeFields};
use cluster_base::{Namespace, Time};
use shard_records::{Record, SplitChange};

/// The creation of a collection.
#[derive(Drop)]
pub(crate) struct Creation {
    pub(crate) namespace: Namespace,
    pub(crate) epoch: u64,
    pub(crate) at: Time,
}

/// What a record says to a catalogue.
#[derive(Drop)]
pub(crate) enum CatalogueRecord {
    Creation(Creation),
    Split(SplitChange),
    Ceiling(Time),
    /// A record of another node, or of a move.
    Other,
}

// Lets a part of a record go.
fn other<T: Drop>(_read: T) -> CatalogueRecord
    ensures { result ≡ Other }
{
    CatalogueRecord::Other
}

// Returns what a record says to a catalogue.
pub(crate) fn kind_of(kept: Record) -> CatalogueRecord
    ensures { IsKind (record_view kept) result }
{
    match kept {
        Record::Create {
            namespace,
            epoch,
            at,
        } => CatalogueRecord::Creation(Creation {
            namespace,
            epoch,
            at,
        }),
        Record::Split(split) => CatalogueRecord::Split(split),
        Record::CatalogueCeiling(time) => CatalogueRecord::Ceiling(time),
        Record::Table(table) => other(table),
        Record::Entry {
            namespace,
            op,
            reply,
            ..
        } => other((namespace, op, reply)),
        Record::MoveStart(start) => other(start),
        Record::MoveEnd(end) => other(end),
        Record::ReceiveStart(start) => other(start),
        Record::Batch(batch) => other(batch),
        Record::ReceiveDone(done) => other(done),
        Record::ReceiveEnd(end) => other(end),
        Record::Deleted(deletion) => other(deletion),
        Record::Commit(commit) => other(commit),
        Record::Resolve(resolve) => other(resolve),
        Record::Purge(purge) => other(purge),
        Record::Ceiling(_)
        | Record::Floor(_)
        | Record::Section(_)
        | Record::Released(_)
        | Record::Life(_)
        | Record::Block(_) => CatalogueRecord::Other,
    }
}

// Returns whether a change is the creation of a collection of this epoch.
pub(crate) fn is_of_epoch(change: &Change, epoch: u64) -> bool
    ensures { result ≡ creates_at change.now.fields epoch }
{
    match &change.fields {
        ChangeFields::Create { epoch: made, .. } => *made == epoch,
        ChangeFields::Split { .. } | ChangeFields::Commit { .. } => false,
    }
}
