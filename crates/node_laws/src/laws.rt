//! The laws of runs.

ghost use Rattle.std.specs.Prelude.{◌≡◌, ℕ, List, Some, true};
ghost use Rattle.chunk_model.specs.Tables.{Chunk, Table, owner_among};
ghost use Rattle.chunk_model.specs.Targets.{meets_any};
ghost use Rattle.history_model.specs.History.{IsIn};
ghost use Rattle.reply_model.specs.Keys.{Span};
ghost use Rattle.reply_model.specs.OneHistory.{OneHistory};
ghost use Rattle.node_model.specs.Journal.{changes_kept};
ghost use Rattle.node_model.specs.RouterRequests.{owners_of_span, is_owned_at};
ghost use Rattle.node_model.specs.World.{Event, Run, World, journal_at, start, account_of};
ghost use Rattle.reply_model.specs.Accounts.{changes_in};

/// Whatever clients send, and however messages are lost, repeated and reordered: the changes of the catalogue and the entries that all journals
/// keep are one legal history of an unsharded collection with each statement at most once, and each answer of each router is right by it.
#[tactic(auto, using(crate::proofs::Runs::run_makes_one_history))]
pub fn run_makes_one_history()
    ensures { (others routers : ℕ) (events : List Event) (w : World) → Run (start others routers) events w → OneHistory (account_of w) }
{}

/// The changes of the catalogue, newest first, are those that its journal keeps, in the order in which it stored them.
#[tactic(auto, using(crate::proofs::Runs::run_keeps_changes))]
pub fn run_keeps_changes()
    ensures { (others routers : ℕ) (events : List Event) (w : World) → Run (start others routers) events w → changes_in w.changed ≡ changes_kept (journal_at w.nodes 0) }
{}

/// Where a table is enough for a read, the owner of each chunk that its span meets is one of the shards that it goes to: no chunk is left out.
#[tactic(auto, using(crate::proofs::AskedOwners::each_owner_is_asked))]
pub fn each_owner_is_asked()
    ensures { (t : Table) (at : ℕ) (span : List Span) (c : Chunk) → is_owned_at t at ≡ true → IsIn c t.chunks → meets_any c.range span ≡ true →
        (shard : ℕ) × (owner_among at c.owners ≡ Some shard) × IsIn shard (owners_of_span t at span) }
{}
