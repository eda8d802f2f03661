//! The catalogue: which collections were created, and which shard has which of their keys. Definitions, and the laws between them: a law is
//! a function that does nothing, whose contract is the law.
#![tactic(auto)]

pub mod changes;
pub mod examples;
mod laws;

pub use laws::{first_tables, own_table_fits};
