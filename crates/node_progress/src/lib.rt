//! All that an open request waits for is under way; so each request is answered where each message is delivered, as in `pipe`.
#![tactic(auto)]

mod laws;

pub use laws::{
    calls_begin_at_rest, delivered_runs_are_answered, delivered_since_are_answered,
    each_request_is_taken, earlier_requests_stay_answered, messages_go_to_nodes,
    no_request_is_sent_back, piped_requests_are_answered, piped_rounds_are_a_run,
    requests_are_of_lives, requests_stay_under_way,
};
