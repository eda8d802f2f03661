//! The definitions on values that one can check by hand.

ghost use Rattle.std.specs.Prelude.{◌≡◌, ◌∷◌, [], Some, None, pos, false, true};
ghost use Rattle.bson_model.specs.SampleDocuments.{id_document};
ghost use Rattle.bson_model.specs.Tree.{int32_value, int64_value};
ghost use Rattle.value_model.specs.Keys.{key_bound};
ghost use Rattle.move_model.specs.SampleMoves.{five_rows, from_ten, moved_row, sent_batch};
ghost use Rattle.move_model.specs.Sources.{at_end_stage, is_handed_out, is_up_to, ready_stage, source_answered, source_start, stage_of, unanswered_stage};
ghost use Rattle.move_model.specs.Batches.{batch_of, has_room, moved, source_after};
ghost use Rattle.move_model.specs.Recipients.{fit_of, known_fit, next_fit, overlay, strange_fit};

/// Of a range from 10 to 20 the key 10 goes, in either width, and 20 does not. The batch ends at the end of the range, since no document is
/// left after it.
pub fn first_batch()
    ensures batch { batch_of (source_start from_ten) five_rows
        ≡ record { number = 1; upto = key_bound (int32_value (pos 20)); docs = moved_row (pos 10) ∷ moved_row (pos 12) ∷ moved_row (pos 19) ∷ [] } }
    ensures empty { batch_of (source_start from_ten) [] ≡ record { number = 1; upto = key_bound (int32_value (pos 20)); docs = [] } }
    ensures before { is_handed_out (source_start from_ten) (int32_value (pos 10)) ≡ false }
    ensures after { (is_handed_out sent_batch (int64_value (pos 10)) ≡ true) × (is_handed_out sent_batch (int32_value (pos 20)) ≡ false) × (is_handed_out sent_batch (int32_value (pos 9)) ≡ false) }
    ensures cursor { (is_up_to (key_bound (int32_value (pos 5))) (int64_value (pos 5)) ≡ true) × (is_up_to (key_bound (int32_value (pos 5))) (int32_value (pos 6)) ≡ false) }
{}

/// A changed key goes with its present document, or with none where it was deleted, and is no longer changed then.
pub fn changed_keys()
    ensures batch { batch_of (record sent_batch { changed = int32_value (pos 11) ∷ int32_value (pos 12) ∷ [] }) five_rows
        ≡ record { number = 2; upto = key_bound (int32_value (pos 20)); docs = moved (int32_value (pos 11)) None ∷ moved_row (pos 12) ∷ [] } }
    ensures after { (source_after (record sent_batch { changed = int64_value (pos 12) ∷ int32_value (pos 13) ∷ [] })
        (record { number = 2; upto = key_bound (int32_value (pos 20)); docs = moved_row (pos 12) ∷ [] })).changed ≡ int32_value (pos 13) ∷ [] }
{}

/// A batch has 128 keys, and 4,194,304 bytes of documents, at most; a larger document goes alone.
pub fn room()
    ensures keys { (has_room 127 0 10 ≡ true) × (has_room 128 0 10 ≡ false) }
    ensures bytes { (has_room 1 4000000 194304 ≡ true) × (has_room 1 4000000 194305 ≡ false) }
    ensures alone { (has_room 0 0 16777216 ≡ true) × (has_room 1 16777216 0 ≡ false) }
{}

/// How far a copy is; an answer to another number than the unanswered one changes nothing.
pub fn stages()
    ensures start { stage_of (source_start from_ten) ≡ ready_stage }
    ensures sent { stage_of sent_batch ≡ unanswered_stage 1 }
    ensures other { (source_answered 0 sent_batch ≡ sent_batch) × (source_answered 2 sent_batch ≡ sent_batch) }
    ensures answered { stage_of (source_answered 1 sent_batch) ≡ at_end_stage false }
    ensures left { stage_of (record (source_answered 1 sent_batch) { changed = int32_value (pos 12) ∷ [] }) ≡ at_end_stage true }
{}

/// Batches 1, 1, 3, 2, 3 as they arrive.
pub fn fits()
    ensures next { (fit_of 0 1 ≡ next_fit) × (fit_of 1 2 ≡ next_fit) × (fit_of 2 3 ≡ next_fit) }
    ensures known { (fit_of 1 1 ≡ known_fit) × (fit_of 3 1 ≡ known_fit) }
    ensures strange { (fit_of 1 3 ≡ strange_fit) × (fit_of 0 0 ≡ strange_fit) × (fit_of 5 0 ≡ strange_fit) × (fit_of 5 18446744073709551615 ≡ strange_fit) }
    ensures members { overlay (moved_row (pos 5) ∷ moved (int64_value (pos 5)) None ∷ []) (int32_value (pos 5)) (Some (id_document (pos 5))) ≡ None }
{}
