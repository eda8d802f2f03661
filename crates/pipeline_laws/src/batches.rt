//! Batches and lengths on documents that one can check by hand.

ghost use Rattle.std.specs.Prelude.{◌≡◌, ◌∷◌, [], None, Some};
ghost use Rattle.pipeline_model.specs.Batches.{IsBatch};
ghost use Rattle.pipeline_model.specs.Halves.{counted_rows, document_rows};
ghost use Rattle.pipeline_model.specs.Lengths.{excess_of_answer, if_more, rows_length};
ghost use Rattle.pipeline_laws.specs.SamplePipelines.{numbered};

/// As many as the size allows, all where no size is given, and none only at size 0.
pub fn batches()
    ensures none { IsBatch (Some 0) (numbered 1 1 ∷ []) [] }
    ensures few { IsBatch (Some 2) (numbered 1 1 ∷ numbered 2 1 ∷ numbered 3 1 ∷ []) (numbered 1 1 ∷ numbered 2 1 ∷ []) }
    ensures all { IsBatch None (numbered 1 1 ∷ numbered 2 1 ∷ []) (numbered 1 1 ∷ numbered 2 1 ∷ []) }
    ensures not_empty { IsBatch None (numbered 1 1 ∷ []) [] → ⊥ }
    ensures too_short { IsBatch (Some 2) (numbered 1 1 ∷ numbered 2 1 ∷ []) (numbered 1 1 ∷ []) → ⊥ }
{}

/// A count has no length; an excess is reported only above the limit.
pub fn lengths()
    ensures rows { (rows_length (document_rows (numbered 1 1 ∷ numbered 2 1 ∷ [])) ≡ 42) × (rows_length (counted_rows 5) ≡ 0) }
    ensures answer { excess_of_answer (numbered 1 1 ∷ []) ≡ None }
    ensures limit { (if_more 16777216 16777216 ≡ None) × (if_more 16777216 16777217 ≡ Some 16777217) }
{}
