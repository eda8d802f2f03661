//! What the journal of a node stores, and which bytes encode it. Definitions, and the laws between them: a law is a function
//! that does nothing, whose contract is the law.
#![tactic(auto)]

pub mod examples;
mod laws;

pub use laws::{entries_are_kept, one_list, one_record};
