//! The history of several journals, one of each shard: definitions, and the laws between them. A law is a function that does nothing, whose contract is the
//! law.
#![tactic(auto)]

pub mod examples;
mod laws;

pub use laws::{
    apart_by_entries, grows, journals_go_on, legal_by_keys, legal_journals, merged_is_legal,
    merged_is_rising, merged_keeps_each, one_journal,
};
