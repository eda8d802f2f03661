//! Sorts: the keys of documents, and the order of keys (MongoDB manual, "$sort", "Comparison/Sort Order").
#![tactic(auto)]

mod candidates;
mod keys;
mod parser;
mod parts;

pub use keys::{SortKey, compare_keys, sort_key};
pub use parser::{MOST_FIELDS, SortSpec};
