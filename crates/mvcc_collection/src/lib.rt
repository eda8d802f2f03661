//! The documents of one collection, with their past versions.
#![tactic(auto)]

mod chain;
mod collection;
mod laws;

pub use collection::Collection;
pub use laws::same_keys_are_one;
