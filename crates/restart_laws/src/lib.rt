//! Every run in which nodes stop and are started again makes one history, and so do calls that begin on the journals of earlier ones.
#![tactic(auto)]

mod calls;
mod laws;

pub use calls::{
    calls_keep_journals, calls_proceed, catalogue_runs, reached_calls_answer_once,
    reached_calls_are_one_run, reached_calls_hold, reached_calls_keep_changes,
    reached_calls_keep_writes, reached_calls_make_one_history, reached_calls_may_go_on,
    reached_calls_own_journals, reached_calls_replay, reached_nodes_may_restart,
    reached_nodes_may_stop, reached_tables_are_the_catalogues, runs_are_runs_with_stops,
    tables_of_their_times, what_was_read_stays,
};
pub use laws::{
    runs_with_stops_keep_changes, runs_with_stops_keep_writes, runs_with_stops_make_one_history,
};
