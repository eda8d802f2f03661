//! What becomes of open requests.

use crate::work::Wait;
use protocol_model::{StatementOutcome, Try};
use read_parts::Target;
use write_runs::{Course, Run};

/// How an open request stays open.
#[derive(Drop)]
pub enum Stay {
    /// As it was.
    Same,
    /// It is a read that waits for this, and was sent to these shards.
    Reads(Wait, Vec<Target>),
    /// It is a read that has had these tries, waits for this, and was sent to these shards.
    ReadsAgain(Vec<Try>, Wait, Vec<Target>),
    /// It is a write that waits for this, of which these runs are under way.
    Writes(Wait, Vec<Run>),
    /// It is a write that waits for this, has these answers, and of which these runs are under way.
    Answers(Wait, Vec<Option<StatementOutcome>>, Vec<Run>),
    /// It is a write that waits for this, and has come this far.
    Tries(Wait, Course),
}

/// What becomes of an open request where others have their fates too.
#[derive(Drop)]
pub enum Fate {
    /// It stays open like this.
    Stays(Stay),
    /// It is answered.
    Leaves,
}
