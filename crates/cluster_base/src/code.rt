//! The errors that a reply may have.
ghost use Rattle.std.specs.Prelude.{◌≡◌, pos};
ghost use Rattle.cluster_base.specs.Codes.{meaning_of};

/// An error that a reply has by its number and its name (MongoDB manual, "Error Codes").
#[derive(Clone, Copy, Debug, PartialEq, Eq, Hash)]
pub enum Code {
    /// A field has a value that the command does not take.
    BadValue,
    /// A field is unknown, missing or given twice.
    FailedToParse,
    /// A value has the wrong type.
    TypeMismatch,
    /// A sum is outside the range of its type.
    Overflow,
    /// The operation is not allowed there: the range is not inside one chunk.
    IllegalOperation,
    /// The body is no document.
    InvalidBson,
    /// A path leads through a value that is no document.
    PathNotViable,
    /// There is no such cursor.
    CursorNotFound,
    /// The time that the request allowed is over.
    MaxTimeExpired,
    /// There is no such command.
    CommandNotFound,
    /// A document has no `_id`.
    ShardKeyNotFound,
    /// An update would change `_id`.
    ImmutableField,
    /// There is no such shard.
    ShardNotFound,
    /// Options do not fit each other or the state of the cluster.
    InvalidOptions,
    /// The name is no namespace, or one that clients may not use.
    InvalidNamespace,
    /// A node has stopped.
    ShutdownInProgress,
    /// The command could not be carried out.
    OperationFailed,
    /// Other transactions held the keys too often.
    WriteConflict,
    /// Another move is under way.
    ConflictingOperation,
    /// The collection is not there.
    NamespaceNotSharded,
    /// There is not enough memory.
    ExceededMemoryLimit,
    /// No shard is in that zone.
    ZoneNotFound,
    /// The range overlaps another zone's range.
    RangeOverlapConflict,
    /// The session has a later write command.
    TransactionTooOld,
    /// The history of that time is no longer kept.
    SnapshotTooOld,
    /// The changes after that point are no longer kept.
    ChangeStreamHistoryLost,
    /// A result is larger than a query may make it.
    QueryExceededMemory,
    /// A document is too large.
    ObjectTooLarge,
    /// There is a document with that key.
    DuplicateKey,
    /// The routing information was out of date too often.
    StaleConfig,
}

impl Code {
    /// Returns the number, `code` of a reply.
    pub fn number(self) -> i32
        ensures { result ≡ pos (meaning_of self).number }
    {
        match self {
            Code::BadValue => 2,
            Code::FailedToParse => 9,
            Code::TypeMismatch => 14,
            Code::Overflow => 15,
            Code::IllegalOperation => 20,
            Code::InvalidBson => 22,
            Code::PathNotViable => 28,
            Code::CursorNotFound => 43,
            Code::MaxTimeExpired => 50,
            Code::CommandNotFound => 59,
            Code::ShardKeyNotFound => 61,
            Code::ImmutableField => 66,
            Code::ShardNotFound => 70,
            Code::InvalidOptions => 72,
            Code::InvalidNamespace => 73,
            Code::ShutdownInProgress => 91,
            Code::OperationFailed => 96,
            Code::WriteConflict => 112,
            Code::ConflictingOperation => 117,
            Code::NamespaceNotSharded => 118,
            Code::ExceededMemoryLimit => 146,
            Code::ZoneNotFound => 177,
            Code::RangeOverlapConflict => 178,
            Code::TransactionTooOld => 225,
            Code::SnapshotTooOld => 239,
            Code::ChangeStreamHistoryLost => 286,
            Code::QueryExceededMemory => 292,
            Code::ObjectTooLarge => 10334,
            Code::DuplicateKey => 11000,
            Code::StaleConfig => 13388,
        }
    }

    /// Returns the name, `codeName` and `errmsg` of a reply.
    pub fn name(self) -> &'static str
        ensures { result.now ≡ (meaning_of self).name }
    {
        match self {
            Code::BadValue => "BadValue",
            Code::FailedToParse => "FailedToParse",
            Code::TypeMismatch => "TypeMismatch",
            Code::Overflow => "Overflow",
            Code::IllegalOperation => "IllegalOperation",
            Code::InvalidBson => "InvalidBSON",
            Code::PathNotViable => "PathNotViable",
            Code::CursorNotFound => "CursorNotFound",
            Code::MaxTimeExpired => "MaxTimeMSExpired",
            Code::CommandNotFound => "CommandNotFound",
            Code::ShardKeyNotFound => "ShardKeyNotFound",
            Code::ImmutableField => "ImmutableField",
            Code::ShardNotFound => "ShardNotFound",
            Code::InvalidOptions => "InvalidOptions",
            Code::InvalidNamespace => "InvalidNamespace",
            Code::ShutdownInProgress => "ShutdownInProgress",
            Code::OperationFailed => "OperationFailed",
            Code::WriteConflict => "WriteConflict",
            Code::ConflictingOperation => "ConflictingOperationInProgress",
            Code::NamespaceNotSharded => "NamespaceNotSharded",
            Code::ExceededMemoryLimit => "ExceededMemoryLimit",
            Code::ZoneNotFound => "ZoneNotFound",
            Code::RangeOverlapConflict => "RangeOverlapConflict",
            Code::TransactionTooOld => "TransactionTooOld",
            Code::SnapshotTooOld => "SnapshotTooOld",
            Code::ChangeStreamHistoryLost => "ChangeStreamHistoryLost",
            Code::QueryExceededMemory => "QueryExceededMemoryLimitNoDiskUseAllowed",
            Code::ObjectTooLarge => "BSONObjectTooLarge",
            Code::DuplicateKey => "DuplicateKey",
            Code::StaleConfig => "StaleConfig",
        }
    }
}
