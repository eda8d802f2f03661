//! The laws of journals.

ghost use Rattle.std.specs.Prelude.{◌≡◌, ℕ, List, Some, max};
ghost use Rattle.std.specs.List.{AllByRecursion};
ghost use Rattle.record_model.specs.Records.{Record};
ghost use Rattle.reply_model.specs.OneHistory.{AreDifferent, ids_told};
ghost use Rattle.node_model.specs.Journal.{greatest_kept};
ghost use Rattle.node_model.specs.Letters.{Effect, Input};
ghost use Rattle.node_model.specs.States.{NodeState};
ghost use Rattle.node_model.specs.Steps.{Step};
ghost use Rattle.node_model.specs.World.{Event, Run, World, start};
ghost use Rattle.node_replay.specs.Acknowledged.{KeepsJournals};
ghost use Rattle.node_replay.specs.Durable.{DurableCatalogue, DurableShard, durable_catalogue, durable_of, durable_shard, empty_catalogue, empty_shard};
ghost use Rattle.node_replay.specs.Histories.{AreChanges, HasKey, IsHistory};
ghost use Rattle.node_replay.specs.Holds.{Holds, HoldsOwn, MayOpen, Replays};
ghost use Rattle.node_replay.specs.ReadTimes.{ComesInTime, IsInTime};
ghost use Rattle.node_replay.specs.Replays.{records_of, replayed};
ghost use Rattle.node_replay.specs.Restarts.{EventOrStop, Gives, RunWithStops};

/// The records that a step stores may follow, one after another, in the durable part of the node before it, and lead to the durable part of the node
/// after it. The node still holds what nodes hold, where its input reads at no time later than itself.
pub fn steps_store_what_may_follow()
    ensures { (stored : ℕ) (s : NodeState) (t : NodeState) (i : Input) (f : Effect) → Holds stored s → Step s i f t → (replayed (Some (durable_of stored s)) (records_of f.written) ≡ Some (durable_of (max stored (greatest_kept f.written)) t)) × (ComesInTime i → Holds (max stored (greatest_kept f.written)) t) }
{}

/// Where nodes stop and are started again, each node holds what nodes hold, and each input that an event may give to one reads at no time later than itself.
/// So the law on steps is true of every step of such a run.
pub fn runs_with_stops_hold()
    ensures { (others routers : ℕ) (events : List EventOrStop) (w : World) → RunWithStops (start others routers) events w → AllByRecursion HoldsOwn w.nodes × ((e : Event) (at : ℕ) (i : Input) → Gives w e at i → ComesInTime i) }
{}

/// Where nodes stop and are started again, no message that was sent reads at a time later than itself.
pub fn no_message_reads_ahead()
    ensures { (others routers : ℕ) (events : List EventOrStop) (w : World) → RunWithStops (start others routers) events w → AllByRecursion IsInTime w.sent }
{}

/// In every run from empty journals the journal of each node replays to its durable part.
pub fn runs_replay()
    ensures { (others routers : ℕ) (events : List Event) (w : World) → Run (start others routers) events w → AllByRecursion Replays w.nodes }
{}

/// The same where nodes stop between two steps, or in one, and are started again; and no start on such a journal is refused.
pub fn runs_with_stops_replay()
    ensures { (others routers : ℕ) (events : List EventOrStop) (w : World) → RunWithStops (start others routers) events w → AllByRecursion Replays w.nodes × AllByRecursion MayOpen w.nodes }
{}

/// A journal of a shard that replays is one legal history, whoever wrote it.
pub fn replayed_shard_is_one_history()
    ensures { (me : ℕ) (records : List Record) (d : DurableShard) → replayed (Some (durable_shard (empty_shard me))) records ≡ Some (durable_shard d) → IsHistory records d }
{}

/// A journal of the catalogue that replays stores changes of which each may follow those before it, if each split is at a key that a document may have.
pub fn replayed_catalogue_has_changes()
    ensures { (me : ℕ) (records : List Record) (d : DurableCatalogue) → AllByRecursion HasKey records → replayed (Some (durable_catalogue (empty_catalogue me))) records ≡ Some (durable_catalogue d) → AreChanges records d }
{}

/// Where nodes stop, no record that was stored is lost: from any world on, each journal grows at its end alone.
pub fn runs_with_stops_keep_journals()
    ensures { (u : World) (events : List EventOrStop) (w : World) → RunWithStops u events w → KeepsJournals u w }
{}

/// Where nodes stop, no request is answered twice.
pub fn runs_with_stops_answer_once()
    ensures { (others routers : ℕ) (events : List EventOrStop) (w : World) → RunWithStops (start others routers) events w → AreDifferent (ids_told w.answered) }
{}
