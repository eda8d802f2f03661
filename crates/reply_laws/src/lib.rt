//! What clients may rely on wherever there is one history, and worked values of the definitions. A law is a function that does
//! nothing, whose contract is the law.
#![tactic(auto)]

pub mod chunk_examples;
mod chunk_laws;
pub mod cursor_examples;
mod cursor_laws;
pub mod examples;
mod laws;
pub mod length_examples;
pub mod read_examples;
mod read_laws;
pub mod retry_examples;
pub mod sum_examples;

pub use chunk_laws::{changes_stay, one_creation, replies_stay_right};
pub use cursor_laws::{
    batches_join, ended_cursors_are_gone, numbers_are_apart, silent_reads_leave,
};
pub use laws::{
    later_writes_tell_later, one_answer, one_entry, own_entry, retries_are_told_the_same,
    told_writes_stand, writes_come_later,
};
pub use read_laws::{
    counts_are_answered, finds_are_answered, reads_are_fresh, reads_miss_nothing,
    reads_reach_writes, reads_stay, told_times_are_never_ahead,
};
