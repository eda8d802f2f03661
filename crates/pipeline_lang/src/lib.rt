//! Pipelines: their stages as documents encode them, and the two parts of one that is split (MongoDB manual, "Aggregation Pipeline Stages").
#![tactic(auto)]

mod halves;
mod parser;
mod stage;

pub use halves::{Half, HalfEnd, Joining, Merge};
pub use parser::MOST_STAGES;
pub use stage::{Pipeline, Stage};
