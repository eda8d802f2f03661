//! What a shard stores of its entries, and the entries that it is about to make.
#![tactic(auto)]

mod collections;
mod effect;
mod entry;
mod fault;
mod outcome;
mod plan;
mod store;

pub use entry::{Left, LentWords, Planned, statement_number};
pub use fault::WriteFault;
pub use outcome::{EntryOutcome, EntryResult, StatementOutcome};
pub use plan::EntryPlan;
pub use store::ShardStore;
