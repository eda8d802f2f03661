//! What the records of a router's journal replay to.
#![tactic(auto)]

mod kind;
mod part;

pub use part::RouterPart;
