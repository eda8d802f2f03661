//! Changes and what they make of a table, on lists that one can check by hand.

ghost use Rattle.std.specs.Prelude.{◌≡◌, [], ◌∷◌, codes, pos, true, false, Some, None};
ghost use Rattle.bson_model.specs.Tree.{int32_value, int64_value};
ghost use Rattle.value_model.specs.Keys.{key_bound, max_bound, min_bound, point_span, range_span};
ghost use Rattle.chunk_model.specs.SampleChanges.{asked_move, bound_at, created_first, four_chunks, move_away, move_back, moved_chunks, returned_chunks, split_of, table_with, three_splits};
ghost use Rattle.chunk_model.specs.Changes.{can_split, chunk_with, commit_change, creations, is_committed, known_table, same_range, split_table};
ghost use Rattle.chunk_model.specs.Placement.{owner};
ghost use Rattle.chunk_model.specs.Requests.{changed, commit_answer, create_answer, no_collection, not_a_bound, not_owner, same_shard, settled, split_answer, unchanged, version_differs};
ghost use Rattle.chunk_model.specs.Targets.{overlap, owned_spans, targets};
ghost use Rattle.chunk_model.specs.Tables.{owner_at};

/// Each half of a chunk gets a minor number of its own; at a bound that exists nothing changes.
pub fn splits()
    ensures versions { known_table (codes "d.c") three_splits ≡ Some (table_with 4 four_chunks) }
    ensures bound { (can_split (int64_value (pos 10)) four_chunks ≡ false) × (split_table (int64_value (pos 10)) (table_with 4 four_chunks) ≡ table_with 4 four_chunks) }
    ensures others { (known_table (codes "d.d") three_splits ≡ None) × (known_table (codes "d.c") (split_of 3 9 ∷ []) ≡ None) }
    ensures counts { (creations (codes "d.c") three_splits ≡ 1) × (creations (codes "d.d") three_splits ≡ 0) }
{}

/// A moved chunk gets the next major number and an owner more, and the lowest that the donor still has the number after it; a donor
/// without another chunk changes no other.
pub fn commits()
    ensures moved { known_table (codes "d.c") (commit_change move_away ∷ three_splits) ≡ Some (table_with 5 moved_chunks) }
    ensures returned { known_table (codes "d.c") (commit_change move_back ∷ commit_change move_away ∷ three_splits) ≡ Some (table_with 6 returned_chunks) }
    ensures ranges { (chunk_with (record { min = bound_at 5; max = bound_at 20 }) four_chunks ≡ None) × (chunk_with (record { min = bound_at 12; max = bound_at 15 }) four_chunks ≡ None) × (same_range move_away.range move_back.range ≡ true) }
    ensures ids { (is_committed move_away.id (commit_change move_away ∷ three_splits) ≡ true) × (is_committed move_back.id (commit_change move_away ∷ three_splits) ≡ false) }
{}

/// The owner of a key at a time.
pub fn owners_of_changes()
    ensures away { (owner (codes "d.c") (int32_value (pos 10)) 30 (commit_change move_away ∷ three_splits) ≡ Some 2) × (owner (codes "d.c") (int32_value (pos 10)) 29 (commit_change move_away ∷ three_splits) ≡ Some 1) }
    ensures beside { (owner (codes "d.c") (int32_value (pos 20)) 30 (commit_change move_away ∷ three_splits) ≡ Some 1) × (owner (codes "d.d") (int32_value (pos 10)) 30 (commit_change move_away ∷ three_splits) ≡ None) }
    ensures before { (owner (codes "d.c") (int32_value (pos 10)) 10 three_splits ≡ Some 1) × (owner (codes "d.c") (int32_value (pos 10)) 9 three_splits ≡ None) }
    ensures back { (owner_at (table_with 6 returned_chunks) (int32_value (pos 15)) 39 ≡ Some 2) × (owner_at (table_with 6 returned_chunks) (int32_value (pos 15)) 40 ≡ Some 1) }
{}

/// The shards of a span, rising, each once; a range that ends where a chunk begins does not meet it. The parts that a shard owns.
pub fn targets_of_spans()
    ensures all { targets (table_with 5 moved_chunks) (range_span (record { min = min_bound; max = max_bound }) ∷ []) 30 ≡ 1 ∷ 2 ∷ [] }
    ensures before { (targets (table_with 5 moved_chunks) (range_span (record { min = min_bound; max = max_bound }) ∷ []) 29 ≡ 1 ∷ []) × (targets (table_with 5 moved_chunks) (range_span (record { min = min_bound; max = max_bound }) ∷ []) 9 ≡ []) }
    ensures below { targets (table_with 5 moved_chunks) (range_span (record { min = bound_at 5; max = bound_at 10 }) ∷ []) 30 ≡ 1 ∷ [] }
    ensures points { (targets (table_with 5 moved_chunks) (point_span (int64_value (pos 10)) ∷ []) 30 ≡ 2 ∷ []) × (targets (table_with 5 moved_chunks) (point_span (int32_value (pos 12)) ∷ point_span (int32_value (pos 1)) ∷ []) 30 ≡ 1 ∷ 2 ∷ []) × (targets (table_with 5 moved_chunks) [] 30 ≡ []) }
    ensures owned { owned_spans (table_with 5 moved_chunks) 1 30 (range_span (record { min = bound_at 1; max = max_bound })) ≡ range_span (record { min = bound_at 1; max = bound_at 10 }) ∷ range_span (record { min = bound_at 20; max = max_bound }) ∷ [] }
    ensures owned_other { (owned_spans (table_with 5 moved_chunks) 2 30 (range_span (record { min = min_bound; max = bound_at 12 })) ≡ range_span (record { min = bound_at 10; max = bound_at 12 }) ∷ []) × (owned_spans (table_with 5 moved_chunks) 2 30 (point_span (int32_value (pos 10))) ≡ point_span (int32_value (pos 10)) ∷ []) }
{}

/// What the catalogue answers: to a repeated commit what it answered before, to a commit in the order of its tests.
pub fn answers()
    ensures repeated { commit_answer asked_move 31 (commit_change move_away ∷ three_splits) ≡ settled true }
    ensures accepted { commit_answer asked_move 30 three_splits ≡ changed (commit_change move_away) }
    ensures ranges { (commit_answer (record { id = asked_move.id; namespace = asked_move.namespace; range = record { min = bound_at 5; max = bound_at 20 }; version = asked_move.version; from = 1; to = 2 }) 30 three_splits ≡ not_a_bound) × (commit_answer (record { id = asked_move.id; namespace = codes "d.d"; range = asked_move.range; version = asked_move.version; from = 1; to = 2 }) 30 three_splits ≡ no_collection) }
    ensures version { commit_answer (record { id = asked_move.id; namespace = asked_move.namespace; range = asked_move.range; version = record { epoch = 1; major = 1; minor = 2 }; from = 3; to = 3 }) 30 three_splits ≡ version_differs asked_move.version }
    ensures owner { commit_answer (record { id = asked_move.id; namespace = asked_move.namespace; range = asked_move.range; version = asked_move.version; from = 2; to = 2 }) 30 three_splits ≡ not_owner }
    ensures shard { commit_answer (record { id = asked_move.id; namespace = asked_move.namespace; range = asked_move.range; version = asked_move.version; from = 1; to = 1 }) 30 three_splits ≡ same_shard }
    ensures splits { (split_answer (codes "d.c") (int64_value (pos 10)) 14 three_splits ≡ unchanged) × (split_answer (codes "d.d") (int64_value (pos 10)) 14 three_splits ≡ no_collection) × (split_answer (codes "d.c") (int32_value (pos 20)) 13 (split_of 5 12 ∷ split_of 10 11 ∷ created_first ∷ []) ≡ changed (split_of 20 13)) }
    ensures creates { (create_answer (codes "d.c") 10 [] ≡ changed created_first) × (create_answer (codes "d.c") 14 three_splits ≡ unchanged) }
{}
