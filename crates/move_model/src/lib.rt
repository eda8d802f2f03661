//! The copy of a moving range while writes go on, and its law.
//! Definitions, and the laws between them: a law is a function that does nothing, whose contract is the law.
#![tactic(auto)]

pub mod examples;
mod laws;

pub use laws::{
    batches_leave_fewer, batches_within_limits, both_sides_agree, copies_keep_their_relation,
    later_member_counts, other_batches_change_nothing,
};
