//! The laws between the definitions.

ghost use Rattle.std.specs.Prelude.{◌≡◌, ℕ, ◌≤◌, ◌<◌, ◌^◌, ◌↔◌, List, length, filter, flat_map, true, Ok, Option};
ghost use Rattle.std.specs.List.{AllByRecursion, AllZip, list_all};
ghost use Rattle.std.specs.Cmp.{IsTotalOrder};
ghost use Rattle.bson_model.specs.Tree.{Fields, Items, document_depth};
ghost use Rattle.pipeline_model.specs.Projections.{Projection, project};
ghost use Rattle.pipeline_model.specs.SortKeys.{SortSpec, order_keys};
ghost use Rattle.pipeline_model.specs.Stages.{Stage, has_int64, is_plain_stage, read_pipeline};
ghost use Rattle.pipeline_model.specs.Runs.{Outcome, Runs, listed, overflowed};
ghost use Rattle.pipeline_model.specs.Halves.{Half, IsHalf, Merge, Merges, Rows, kept_at_head, may_stand_in};
ghost use Rattle.pipeline_model.specs.Split.{split};
ghost use Rattle.pipeline_model.specs.Batches.{IsBatch};

/// Each pipeline has an outcome for each list of documents.
pub fn each_pipeline_has_an_outcome()
    ensures { (stages : List Stage) (docs : List Fields) → (out : Outcome) × Runs stages docs out }
{}

/// The law of halves: merging the halves of any parts gives an outcome that the whole pipeline has for the documents of the parts, one part after another.
/// There may be any number of parts, even none; and any number of documents, where the numbers of `$skip` and `$limit` are less than 2^63, as in each
/// pipeline that was read.
pub fn halves_merge_to_the_whole()
    ensures any { (stages : List Stage) (half : Half) (merge : Merge) (parts : List (List Fields)) (rows : List Rows) (out : Outcome)
        → split stages ≡ (half, merge) → list_all has_int64 stages ≡ true → AllZip (IsHalf half) parts rows
        → Merges merge rows out → Runs stages (flat_map (λ part. part) parts) out }
    ensures few { (stages : List Stage) (half : Half) (merge : Merge) (parts : List (List Fields)) (rows : List Rows) (out : Outcome)
        → split stages ≡ (half, merge) → length (flat_map (λ part. part) parts) < 2 ^ 62 → AllZip (IsHalf half) parts rows
        → Merges merge rows out → Runs stages (flat_map (λ part. part) parts) out }
{}

/// The numbers of `$skip` and `$limit` in a pipeline that was read are less than 2^63.
#[tactic(auto, using(pipeline_model::proofs::SmallNumbers::read_int64))]
pub fn numbers_are_small()
    ensures { (array : Items) (stages : List Stage) → read_pipeline array ≡ Ok stages → list_all has_int64 stages ≡ true }
{}

/// A document whose key is outside the half's span, at any position, adds nothing to what the half returns, nor to what the whole pipeline returns.
pub fn outside_the_span_adds_nothing()
    ensures halves { (stages : List Stage) (half : Half) (merge : Merge) (docs : List Fields) (rows : Rows)
        → split stages ≡ (half, merge) → IsHalf half (filter (may_stand_in half.span) docs) rows ↔ IsHalf half docs rows }
    ensures whole { (stages : List Stage) (half : Half) (merge : Merge) (docs : List Fields) (out : Outcome)
        → split stages ≡ (half, merge) → Runs stages (filter (may_stand_in half.span) docs) out ↔ Runs stages docs out }
{}

/// The documents that the filter at the head of a half's stages removes add nothing: for those that it keeps the half returns the same.
#[tactic(auto, using(crate::proofs::KeptAtHead::half_of_kept))]
pub fn what_the_head_drops_adds_nothing()
    ensures { (half : Half) (docs : List Fields) (rows : Rows) → IsHalf half (kept_at_head half.stages docs) rows ↔ IsHalf half docs rows }
{}

/// The half of a pipeline never overflows: its groups have exact sums.
pub fn halves_never_overflow()
    ensures { (stages : List Stage) (half : Half) (merge : Merge) (docs : List Fields)
        → split stages ≡ (half, merge) → Runs half.stages docs overflowed → ⊥ }
{}

/// The order of sort keys is total: it is antisymmetric and transitive, and keys that compare equal compare alike with all other keys.
pub fn sort_order_is_total()
    ensures { (spec : SortSpec) → IsTotalOrder (order_keys spec) }
{}

/// No projection makes a document deeper.
pub fn projections_never_deepen()
    ensures { (rules : Projection) (document : Fields) → document_depth (project rules document) ≤ document_depth document }
{}

/// No document of a result is deeper than the deepest of the pipeline's input, or than one level: where the constants of `$group` have no nested values, as
/// in each pipeline that was read.
pub fn pipelines_never_deepen()
    ensures depth { (n : ℕ) (stages : List Stage) (docs documents : List Fields) → 1 ≤ n → list_all is_plain_stage stages ≡ true
        → AllByRecursion (λ document. document_depth document ≤ n) docs → Runs stages docs (listed documents)
        → AllByRecursion (λ document. document_depth document ≤ n) documents }
    ensures read { (array : Items) (stages : List Stage) → read_pipeline array ≡ Ok stages → list_all is_plain_stage stages ≡ true }
{}

/// For each size there is one batch of the documents that remain.
pub fn there_is_one_batch()
    ensures some { (size : Option ℕ) (remaining : List Fields) → (batch : List Fields) × IsBatch size remaining batch }
    ensures one { (size : Option ℕ) (remaining a b : List Fields) → IsBatch size remaining a → IsBatch size remaining b → a ≡ b }
{}
