//! Which documents are queries and changes, of which documents queries hold, and what writes make of a document (MongoDB manual, "Query
//! and Projection Operators", "Update Operators").
//! Definitions, and the laws between them: a law is a function that does nothing, whose contract is the law.
#![tactic(auto)]

pub mod changes;
pub mod edits;
pub mod examples;
pub mod faults;
mod laws;
pub mod tables;
pub mod writes;

pub use laws::{
    changes_keep_keys, edits_in_order, keys_in_span, keys_of_documents, modified_is_other_data,
    names_of_paths, never_too_deep, put_leaves_all_else, take_leaves_all_else,
};
