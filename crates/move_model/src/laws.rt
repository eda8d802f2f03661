//! The laws of a copy.

ghost use Rattle.std.specs.Prelude.{◌≡◌, ◌≢◌, ◌⊎◌, ◌+◌, ◌<◌, ◌≤◌, ◌++◌, ◌∷◌, [], ℕ, List, Option, false, length, if◌then◌else◌};
ghost use Rattle.bson_model.specs.Tree.{Datum, Fields};
ghost use Rattle.value_model.specs.Keys.{Range};
ghost use Rattle.value_model.specs.Order.{same_value};
ghost use Rattle.history_model.specs.Documents.{AreInOrder, Rows};
ghost use Rattle.move_model.specs.Sources.{Source, at_end_stage, stage_of};
ghost use Rattle.record_model.specs.Moves.{Batch, MovedDocument};
ghost use Rattle.move_model.specs.Batches.{batch_of, members_bytes, members_left, members_next, most_bytes, most_keys, source_after};
ghost use Rattle.move_model.specs.Recipients.{overlay};
ghost use Rattle.move_model.specs.Copies.{AreEqual, Copy, CopyRun, CopyStep, HasNone, IsCopy, QuietRun, copy_received, copy_start};

/// A copy begins where the recipient has nothing of the range. Whatever then happens keeps its relation: a batch is handed out, a
/// client writes at the source, a batch arrives, for the first time or again, an answer arrives.
#[tactic(auto, using(crate::proofs::Relation::step_kept, crate::proofs::Relation::run_kept))]
pub fn copies_keep_their_relation()
    ensures start { (range : Range) (documents : Rows) (copied : Datum → Option Fields) → AreInOrder documents → HasNone range copied → IsCopy (copy_start range documents copied) }
    ensures step { (c d : Copy) → IsCopy c → CopyStep c d → IsCopy d }
    ensures run { (c d : Copy) → IsCopy c → CopyRun c d → IsCopy d }
{}

/// A batch that was applied before, or has another number than the next, changes nothing.
#[tactic(auto, using(crate::proofs::Limits::not_next))]
pub fn other_batches_change_nothing()
    ensures { (c : Copy) (b : Batch) → b.number ≢ c.applied + 1 → copy_received b c ≡ c }
{}

/// At the end of the range, with nothing left to hand out and no batch unanswered, both sides have the same documents of the range;
/// and so they have until the next write.
#[tactic(auto, using(crate::proofs::Ends::agree_now, crate::proofs::Ends::agree_later))]
pub fn both_sides_agree()
    ensures now { (c : Copy) → IsCopy c → stage_of c.source ≡ at_end_stage false → AreEqual c }
    ensures later { (c d : Copy) → IsCopy c → stage_of c.source ≡ at_end_stage false → QuietRun c d → AreEqual d }
{}

/// Where a key is left to hand out, fewer are left after the next batch.
pub fn batches_leave_fewer()
    ensures { (s : Source) (rows : Rows) → AreInOrder rows → 0 < length (members_left s rows)
        → length (members_left (source_after s (batch_of s rows)) rows) < length (members_left s rows) }
{}

/// A batch has at most so many keys, and so many bytes of documents unless it has one key alone; and a key where any is left.
#[tactic(auto, using(crate::proofs::Limits::within_limits, crate::proofs::Limits::at_least_one))]
pub fn batches_within_limits()
    ensures keys { (s : Source) (rows : Rows) → length (members_next s rows) ≤ most_keys }
    ensures bytes { (s : Source) (rows : Rows) → (members_bytes (members_next s rows) ≤ most_bytes) ⊎ (length (members_next s rows) ≤ 1) }
    ensures some { (s : Source) (rows : Rows) → 1 ≤ length (members_left s rows) → 1 ≤ length (members_next s rows) }
{}

/// Of two members with one key the later counts.
#[tactic(auto, using(crate::proofs::Limits::later_counts))]
pub fn later_member_counts()
    ensures { (ms : List MovedDocument) (m : MovedDocument) (key : Datum) (before : Option Fields)
        → overlay (ms ++ m ∷ []) key before ≡ (if same_value m.key key then m.document else overlay ms key before) }
{}
