//! Pipelines split into a half, which each part of the documents gets, and a merge of what the halves give (MongoDB manual,
//! "Aggregation Pipeline and Sharded Collections").
#![tactic(auto)]

mod cuts;
mod front;
mod parting;

pub use parting::split;
