//! Answers as values, and their documents.
#![tactic(auto)]

mod admin;
mod answer;
mod batches;
mod counts;
mod documents;
mod evidence;
mod handshake;
mod hello;
mod is_master;
mod kill_cursors;
mod parts;
mod refusal;
mod writes;

pub use answer::{
    Answer, Batch, ClientNumber, MOST_STATEMENTS, StatementIndex, Upserted, WriteError, WriteKind,
};
pub use documents::write_answer;
pub use evidence::{Evidence, ShownTry, ShownVersion};
pub use refusal::{Refusal, expired_refusal, memory_refusal, stale_refusal, steps_refusal};
