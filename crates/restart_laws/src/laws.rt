//! The laws of runs in which nodes stop.

ghost use Rattle.std.specs.Prelude.{◌≡◌, ℕ, List};
ghost use Rattle.reply_model.specs.Accounts.{changes_in};
ghost use Rattle.reply_model.specs.OneHistory.{OneHistory};
ghost use Rattle.node_model.specs.Journal.{changes_kept};
ghost use Rattle.node_model.specs.World.{World, account_of, journal_at, start};
ghost use Rattle.node_replay.specs.Acknowledged.{KeepsWrites};
ghost use Rattle.node_replay.specs.Restarts.{EventOrStop, RunWithStops};

/// Whatever clients send, however messages are lost, repeated and reordered, and wherever nodes stop and are started again, between two steps or in one:
/// the changes of the catalogue and what all journals keep are one legal history of an unsharded collection with each statement at most once, and
/// each answer of each router is right by it.
#[tactic(auto, using(crate::proofs::Runs::runs_with_stops_make_one_history))]
pub fn runs_with_stops_make_one_history()
    ensures { (others routers : ℕ) (events : List EventOrStop) (w : World) → RunWithStops (start others routers) events w → OneHistory (account_of w) }
{}

/// The changes of the catalogue, newest first, are those that its journal keeps, in the order in which it stored them.
#[tactic(auto, using(crate::proofs::Runs::runs_with_stops_keep_changes))]
pub fn runs_with_stops_keep_changes()
    ensures { (others routers : ℕ) (events : List EventOrStop) (w : World) → RunWithStops (start others routers) events w → changes_in w.changed ≡ changes_kept (journal_at w.nodes 0) }
{}

/// Where nodes stop, in whichever step, and are started again: no write that was acknowledged is lost, and no statement is applied twice.
#[tactic(auto, using(crate::proofs::Runs::runs_with_stops_keep_writes))]
pub fn runs_with_stops_keep_writes()
    ensures { (others routers : ℕ) (events : List EventOrStop) (w : World) → RunWithStops (start others routers) events w → KeepsWrites w }
{}
