//! The messages of nodes, as values.
#![tactic(auto)]

mod body;
mod change;
mod document;
mod head;
mod input;
pub mod laws;
mod lists;
mod message;
mod not_taken;
mod reads;
mod refused;
mod splits;
mod statement;
mod tables;
mod writes;

pub use body::Body;
pub use change::NewChange;
pub use document::NewDocument;
pub use head::Head;
pub use input::Input;
pub use lists::{DocumentList, DoneList, StatementList};
pub use message::Message;
pub use not_taken::{Asked, missed, requested_of_shard};
pub use reads::{HalfAsk, HalfFault, ReadAsk, ReadRows, TimeAsk, TimeTold};
pub use refused::{About, Cause, Lack, Refused, Try};
pub use splits::{SplitAsk, SplitDone};
pub use statement::{Done, Operation, Outcome, Statement, StatementOutcome};
pub use tables::{At, TableAsk, TableTold};
pub use writes::{WriteAsk, WriteDone};
