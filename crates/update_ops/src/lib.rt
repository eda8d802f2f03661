//! Changes of documents, and the statements that make them (MongoDB manual, "Update Operators", "Update Documents", "Replace a
//! Document", "Upsert Behavior").
#![tactic(auto)]

mod change;
mod edits;
mod effect;
mod fault;
mod fields;
mod filters;
mod numbers;
mod operators;
mod order;
mod parser;
mod puts;
mod statement;

pub use change::{Edit, Number, PathEdit, Update};
pub use effect::{Applied, apply};
pub use fault::ApplyFault;
pub use statement::{Op, Start};
