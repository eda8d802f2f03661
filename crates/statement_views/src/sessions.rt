//! What is stored of sessions, as plain data (MongoDB manual, "Retryable Writes", "Server Sessions").

use cluster_base::{Session, Time};
use value_compare::Reply;

/// A statement that was done.
#[derive(Drop)]
pub struct StatementRecord {
    /// Its index in its command.
    pub index: u32,
    /// The time of its entry.
    pub time: Time,
    /// Its reply.
    pub reply: Reply,
}

/// The statements that were done in the greatest transaction of a session.
#[derive(Drop)]
pub struct SessionRecord {
    /// The session.
    pub session: Session,
    /// The number of its greatest transaction.
    pub txn: i64,
    /// The statements; in order, each has an index above the last one's.
    pub statements: Vec<StatementRecord>,
}

/// What is stored of sessions.
#[derive(Drop)]
pub struct Sessions {
    /// The sessions; in order, each comes after the last one: clients' by their bytes, then routers' by node, life and request.
    pub sessions: Vec<SessionRecord>,
}
