//! Which statements of a write are sent to which shard, what of that is not answered yet, and which tries met a later table.
#![tactic(auto)]

mod answered;
mod course;
mod marks;
mod owners;
mod places;
mod run;
mod sending;
mod tries;
mod turns;
mod unsent;

pub use answered::{has_outcome, left_of, rest_of_served};
pub use course::Course;
pub use run::{Run, add_runs, copies_of};
pub use sending::runs_by;
pub use tries::{
    copy_tries, has_all_tries, is_below, is_turn, no_tries, reaches, tries_at, turn_after,
    with_tries,
};
pub use turns::{binds, binds_run, run_with, turn_of, without_run};
pub use unsent::{are_unsent, in_run, unanswered_indices, unsent_indices};
