//! The one order of values, on which keys, filters, sorts and groups rest (MongoDB manual, "Comparison/Sort Order").
//! Definitions, and the laws between them: a law is a function that does nothing, whose contract is the law.
#![tactic(auto)]

pub mod examples;
mod laws;

pub use laws::{
    keys_above_and_below, numbers_of_both_kinds, order_is_total, ranges_that_meet, same_keys,
};
