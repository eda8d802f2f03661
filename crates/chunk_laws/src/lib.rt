//! Laws of the catalogue's changes: a law is a function that does nothing, whose contract is the law.
#![tactic(auto)]

mod laws;

pub use laws::{
    answers_follow, chunks_cover, commits_raise_the_version, committed_versions_are_passed,
    same_version_same_keys, splits_change_no_owner, tables_keep_owners,
};
