//! Joins the rows that the parts of the documents returned (MongoDB manual, "Aggregation Pipeline and Sharded Collections").
#![tactic(auto)]

mod joins;
mod merging;

pub use merging::merge;
