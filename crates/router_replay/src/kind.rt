//! The records of a router.

ghost use Rattle.shard_records.specs.Meanings.{record_view};
ghost use Rattle.router_replay.specs.RouterParts.{IsKind};

use shard_records::Record;

/// What a record says to a router.
#[derive(Clone, Copy, Debug)]
pub(crate) enum RouterRecord {
    Life(u64),
    Block(u64),
    /// A record of another node.
    Other,
}

// Returns what a record says to a router.
pub(crate) fn kind_of(record: &Record) -> RouterRecord
    ensures { IsKind (record_view «record».now) result }
{
    match record {
        Record::Life(number) => RouterRecord::Life(*number),
        Record::Block(number) => RouterRecord::Block(*number),
        Record::Table(_)
        | Record::Entry { .. }
        | Record::Ceiling(_)
        | Record::Floor(_)
        | Record::MoveStart(_)
        | Record::Section(_)
        | Record::MoveEnd(_)
        | Record::Released(_)
        | Record::ReceiveStart(_)
        | Record::Batch(_)
        | Record::ReceiveDone(_)
        | Record::ReceiveEnd(_)
        | Record::Deleted(_)
        | Record::Create { .. }
        | Record::Split(_)
        | Record::Commit(_)
        | Record::Resolve(_)
        | Record::Purge(_)
        | Record::CatalogueCeiling(_) => RouterRecord::Other,
    }
}
