//! What the journals of nodes replay to, and what is kept where nodes stop and are started again.
#![tactic(auto)]

mod examples;
mod laws;

pub use examples::{catalogues_refuse, journals_replay, routers_refuse, shards_refuse};
pub use laws::{
    no_message_reads_ahead, replayed_catalogue_has_changes, replayed_shard_is_one_history,
    runs_replay, runs_with_stops_answer_once, runs_with_stops_hold, runs_with_stops_keep_journals,
    runs_with_stops_replay, steps_store_what_may_follow,
};
