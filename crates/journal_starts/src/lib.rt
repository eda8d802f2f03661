//! Calls that begin on the files of earlier ones.
#![tactic(auto)]

pub mod laws;
