//! What the sessions, numbers and operands of write statements are by the definitions of the history; and what is stored of sessions, as plain
//! data.
#![tactic(auto)]

mod sessions;

pub use sessions::{SessionRecord, Sessions, StatementRecord};
