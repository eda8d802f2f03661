//! What a shard makes of one request: which it is, how it relates to the tables, its outcome, and the records of what it changes.
#![tactic(auto)]

mod answers;
mod asks;
mod halves;
mod records;
mod refusals;
mod standings;

pub use answers::{StatementResult, WriteReply, done_of, ends};
pub use asks::{Ask, ask_in, is_parked, keep_others, wants_table};
pub use halves::answer_half;
pub use records::{ceiling_records, entry_bytes, lend_words, table_records};
pub use refusals::{NoTable, no_table, refused_by, requested};
pub use standings::{Standing, is_news, later, standing_of};
