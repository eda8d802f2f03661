//! What the cluster does to documents: entries, and the history that they are. Definitions, and the laws between them: a law is a function that does nothing,
//! whose contract is the law.
#![tactic(auto)]

pub mod examples;
mod laws;

pub use laws::{
    documents_in_order, keys_stay, no_entry_twice, notes_of_both, nothing_without_key,
    one_more_note, one_more_put, others_untouched, refused_leaves, second_insert_is_refused,
};
