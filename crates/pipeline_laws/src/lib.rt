//! The laws of pipelines, and worked values of their definitions. A law is a function that does nothing, whose contract is the law.
#![tactic(auto)]

pub mod batches;
pub mod groups;
mod laws;
pub mod projections;
pub mod runs;
pub mod sorts;
pub mod stages;

pub use laws::{
    each_pipeline_has_an_outcome, halves_merge_to_the_whole, halves_never_overflow,
    numbers_are_small, outside_the_span_adds_nothing, pipelines_never_deepen,
    projections_never_deepen, sort_order_is_total, there_is_one_batch,
};
