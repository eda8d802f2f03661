//! The laws of calls that begin on the journals which earlier calls left.

ghost use Rattle.std.specs.Prelude.{◌≡◌, ◌++◌, ℕ, List, Some};
ghost use Rattle.std.specs.List.{AllByRecursion, slice_get};
ghost use Rattle.reply_model.specs.Accounts.{changes_in};
ghost use Rattle.reply_model.specs.OneHistory.{AreDifferent, OneHistory, ids_told};
ghost use Rattle.node_model.specs.Journal.{changes_kept};
ghost use Rattle.node_model.specs.Letters.{Input};
ghost use Rattle.node_model.specs.States.{NodeState};
ghost use Rattle.node_model.specs.World.{Event, Held, Moves, Run, World, account_of, journal_at, start};
ghost use Rattle.node_replay.specs.Acknowledged.{KeepsJournals, KeepsWrites};
ghost use Rattle.node_replay.specs.Holds.{HoldsOwn, MayOpen, Replays};
ghost use Rattle.node_replay.specs.ReadTimes.{ComesInTime};
ghost use Rattle.node_replay.specs.Openings.{opened_on};
ghost use Rattle.node_replay.specs.Restarts.{EventOrStop, Gives, Restarts, RunWithStops};
ghost use Rattle.restart_laws.specs.Calls.{BeginsOn, Calls, HaveOwnEntries, IsOfRun, Reached, wholes};
ghost use Rattle.restart_laws.specs.Pinned.{IsPinned};
ghost use Rattle.restart_laws.specs.Tables.{CatalogueRuns, HasTablesOf, SaysTableOf, SaysTableOfItsTime, StoresTablesOf, changes_stored, sent_since};

/// Calls, one after another, lead to a world of one run of nodes that stop and are started again: in that run the messages of earlier calls were sent too, before
/// those of the last.
#[tactic(auto, using(crate::proofs::ReachedCalls::reached_calls_are_one_run))]
pub fn reached_calls_are_one_run()
    ensures { (others routers : ℕ) (w : World) → Reached others routers w → IsOfRun (start others routers) w }
{}

/// However many calls there were, each on the journals that the one before it left: the changes of the catalogue and what all journals keep, of all
/// calls, are one legal history of an unsharded collection with each statement at most once, and each answer that was given in any of them is right by it.
#[tactic(auto, using(crate::proofs::ReachedCalls::reached_calls_make_one_history))]
pub fn reached_calls_make_one_history()
    ensures { (others routers : ℕ) (w : World) → Reached others routers w → OneHistory (account_of w) }
{}

/// The changes of the catalogue in all calls, newest first, are those that its journal keeps, in the order in which it stored them.
#[tactic(auto, using(crate::proofs::ReachedCalls::reached_calls_keep_changes))]
pub fn reached_calls_keep_changes()
    ensures { (others routers : ℕ) (w : World) → Reached others routers w → changes_in w.changed ≡ changes_kept (journal_at w.nodes 0) }
{}

/// Each journal has the entries of its own shard, with rising times: so the history is these journals, in one order.
#[tactic(auto, using(crate::proofs::ReachedCalls::reached_calls_own_journals))]
pub fn reached_calls_own_journals()
    ensures { (others routers : ℕ) (w : World) → Reached others routers w → HaveOwnEntries w.nodes }
{}

/// The journal of each node replays to its durable part, and no start on it is refused.
#[tactic(auto, using(crate::proofs::ReachedCalls::reached_calls_replay))]
pub fn reached_calls_replay()
    ensures { (others routers : ℕ) (w : World) → Reached others routers w → AllByRecursion Replays w.nodes × AllByRecursion MayOpen w.nodes }
{}

/// Each node holds what nodes hold, and each input that an event may give to one reads at no time later than itself: so the records of each step of a call
/// may follow those that its journal has, also those of earlier calls (law `steps_store_what_may_follow` of `node_replay`).
#[tactic(auto, using(crate::proofs::ReachedCalls::reached_calls_hold))]
pub fn reached_calls_hold()
    ensures { (others routers : ℕ) (w : World) → Reached others routers w → AllByRecursion HoldsOwn w.nodes × ((e : Event) (at : ℕ) (i : Input) → Gives w e at i → ComesInTime i) }
{}

/// No write that was acknowledged in any call is lost, and no statement is applied twice, also where it was sent in two calls.
#[tactic(auto, using(crate::proofs::ReachedCalls::reached_calls_keep_writes))]
pub fn reached_calls_keep_writes()
    ensures { (others routers : ℕ) (w : World) → Reached others routers w → KeepsWrites w }
{}

/// No request is answered twice, also not in a later call.
#[tactic(auto, using(crate::proofs::ReachedCalls::reached_calls_answer_once))]
pub fn reached_calls_answer_once()
    ensures { (others routers : ℕ) (w : World) → Reached others routers w → AreDifferent (ids_told w.answered) }
{}

/// No record that was stored is lost in a later call: from any world on, each journal grows at its end alone.
#[tactic(auto, using(crate::proofs::ReachedCalls::calls_keep_journals))]
pub fn calls_keep_journals()
    ensures { (u : World) (w : World) → Calls u w → KeepsJournals u w }
{}

/// Wherever calls led to, a next one may begin.
#[tactic(auto, using(crate::proofs::ReachedCalls::reached_calls_may_go_on))]
pub fn reached_calls_may_go_on()
    ensures { (others routers : ℕ) (u : World) → Reached others routers u → (first : World) × BeginsOn u first }
{}

/// Documents that a shard took for a read stay those that its journal has at the time of the read, and that there was no collection at the time of a read
/// stays so by the catalogue's journal: of each message that was sent, now and in all later calls.
#[tactic(auto, using(crate::proofs::Pinned::what_was_read_stays))]
pub fn what_was_read_stays()
    ensures { (others routers : ℕ) (u : World) (w : World) → Reached others routers u → Calls u w → AllByRecursion (IsPinned w) u.sent }
{}

/// Each table that a node has, each that its journal stores, also where a longer one replaced it, and each that a message said is one that the catalogue had,
/// as its journal says; and no time in it is later than the node or the message.
#[tactic(auto, using(crate::proofs::PastTables::reached_tables_are_the_catalogues))]
pub fn reached_tables_are_the_catalogues()
    ensures { (others routers : ℕ) (w : World) → Reached others routers w →
        AllByRecursion (HasTablesOf (changes_stored w)) w.nodes × AllByRecursion (StoresTablesOf (changes_stored w)) w.nodes ×
        AllByRecursion (SaysTableOf (changes_stored w)) w.sent }
{}

/// While the catalogue is not started again, the table of each message is the one of the message's time: each change that it does not have is later.
#[tactic(auto, using(crate::proofs::TablesAtTimes::tables_of_their_times))]
pub fn tables_of_their_times()
    ensures { (u : World) (w : World) → CatalogueRuns u w → AllByRecursion (SaysTableOfItsTime (changes_stored w)) (sent_since u w) }
{}

/// So it is from each world of a call on, where no node stops: in a whole call of `pipe`, and of `serve`.
#[tactic(auto, using(crate::proofs::TablesAtTimes::catalogue_runs))]
pub fn catalogue_runs()
    ensures { (others routers : ℕ) (u : World) (w : World) (events : List Event) → Reached others routers u → Run u events w → CatalogueRuns u w }
{}

/// A run is one in which no node stops.
#[tactic(auto, using(crate::proofs::ReachedCalls::run_whole))]
pub fn runs_are_runs_with_stops()
    ensures { (u : World) (w : World) (events : List Event) → Run u events w → RunWithStops u (wholes events) w }
{}

/// What a call does after it led to a world, also where nodes stop, it leads to from its start.
#[tactic(auto, using(crate::proofs::ReachedCalls::calls_proceed))]
pub fn calls_proceed()
    ensures { (u : World) (v : World) (w : World) (events : List EventOrStop) → Calls u v → RunWithStops v events w → Calls u w }
{}

/// Each node may stop between two steps, and is started again.
#[tactic(auto, using(crate::proofs::ReachedCalls::reached_nodes_may_restart))]
pub fn reached_nodes_may_restart()
    ensures { (others routers at : ℕ) (w : World) (h : Held) → Reached others routers w → slice_get w.nodes at ≡ Some h → (v : World) × Restarts w at v }
{}

/// So it may in each step that it can take: with the records of the step its journal is opened.
pub fn reached_nodes_may_stop()
    ensures { (others routers at : ℕ) (w : World) (v : World) (e : Event) (i : Input) → Reached others routers w → Gives w e at i → (m : Moves w at i v) →
        (new : NodeState) × (opened_on m.old.state (m.old.kept ++ m.f.written) ≡ Some new) }
{}
