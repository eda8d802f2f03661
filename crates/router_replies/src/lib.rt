//! The plans of clients' requests at a router, their answers, and the records that a router writes.
#![tactic(auto)]

mod batches;
mod bodies;
mod numbers;
mod plans;
mod records;
mod refusals;
mod replies;
mod splits;
mod statements;
mod tables;

pub use batches::{DocumentList, batch_answer, empty_answer, is_only, next_answer};
pub use bodies::is_taken;
pub use numbers::count_told;
pub use plans::{RequestPlan, needs_collection, needs_read, plan_split, plan_write, telling_of};
pub use records::{block_records, life_record};
pub use refusals::{excess_answer, not_open, overflow_answer, time_ahead};
pub use replies::reply_to;
pub use splits::{sharded_answer, split_answer};
pub use tables::{known_in, learn};
