//! How far a write has come.

use crate::run::Run;
use protocol_model::{StatementOutcome, Try};

/// How far a write has come.
#[derive(Drop)]
pub struct Course {
    /// The outcomes of the statements, by their indices.
    pub answers: Vec<Option<StatementOutcome>>,
    /// Their tries that met a later table, by their indices.
    pub tries: Vec<Vec<Try>>,
    /// What was sent to shards, and is not answered.
    pub runs: Vec<Run>,
}
