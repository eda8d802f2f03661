//! Which arrays are pipelines, and how they are split, on values that one can check by hand.

ghost use Rattle.std.specs.Prelude.{◌≡◌, ◌∷◌, [], ◌-◌, ◌^◌, codes, is_ok, negsuc, true, Ok, Err};
ghost use Rattle.std.specs.Result.{result_map_both};
ghost use Rattle.bson_model.specs.Tree.{document_value, int32_value, int64_value, item, no_fields, no_items, null_value, string_value};
ghost use Rattle.value_model.specs.Keys.{point_span};
ghost use Rattle.query_model.specs.KeySpans.{whole_span};
ghost use Rattle.query_model.specs.Queries.{bad_operand, no_clauses, unknown_operator};
ghost use Rattle.query_model.specs.SampleQueries.{array, inner, number, one, two};
ghost use Rattle.pipeline_model.specs.Operands.{constant_operand};
ghost use Rattle.pipeline_model.specs.Stages.{count_stage, group_stage, limit_stage, match_stage, read_pipeline, skip_stage, sort_stage};
ghost use Rattle.pipeline_model.specs.Halves.{counted_end, documents_end, joined_as_they_come, joined_counts, joined_groups, joined_in_order, partials_end};
ghost use Rattle.pipeline_model.specs.Split.{reach};
ghost use Rattle.pipeline_laws.specs.SamplePipelines.{by_a, repeated, split_of, stages_of};
ghost use Rattle.query_model.specs.SampleChanges.{long, text};

/// An array of documents of one field each; an empty array is a pipeline.
pub fn read()
    ensures stages { stages_of (one "$match" (document_value no_fields) ∷ one "$sort" (inner "a" (number 1)) ∷ one "$skip" (number 0)
        ∷ one "$limit" (long 1) ∷ one "$count" (text "n") ∷ [])
        ≡ Ok (match_stage no_clauses ∷ sort_stage by_a ∷ skip_stage 0 ∷ limit_stage 1 ∷ count_stage (codes "n") ∷ []) }
    ensures group { stages_of (one "$group" (inner "_id" null_value) ∷ []) ≡ Ok (group_stage (record { key = constant_operand null_value; fields = [] }) ∷ []) }
    ensures none { stages_of [] ≡ Ok [] }
    ensures many { is_ok (stages_of (repeated 1000 (one "$skip" (number 1)))) ≡ true }
{}

/// The first fault of the stages in order, of each the name before the operand; that there are more than 1000 is checked before each of them.
pub fn refused()
    ensures elements { (read_pipeline (item (number 5) no_items) ≡ Err bad_operand)
        × (stages_of (no_fields ∷ []) ≡ Err bad_operand)
        × (stages_of (two "$skip" (number 1) "$limit" (number 1) ∷ []) ≡ Err bad_operand)
        × (stages_of (one "$lookup" (number 1) ∷ one "$skip" (text "x") ∷ []) ≡ Err unknown_operator)
        × (stages_of (one "$skip" (text "x") ∷ one "$lookup" (number 1) ∷ []) ≡ Err bad_operand) }
    ensures numbers { (stages_of (one "$skip" (int32_value (negsuc 0)) ∷ []) ≡ Err bad_operand)
        × (stages_of (one "$limit" (number 0) ∷ []) ≡ Err bad_operand)
        × (stages_of (one "$limit" (text "1") ∷ []) ≡ Err bad_operand)
        × (stages_of (one "$limit" (int64_value (negsuc 0)) ∷ []) ≡ Err bad_operand) }
    ensures names { (stages_of (one "$count" (text "") ∷ []) ≡ Err bad_operand)
        × (stages_of (one "$count" (text "a.b") ∷ []) ≡ Err bad_operand)
        × (stages_of (one "$count" (text "$a") ∷ []) ≡ Err bad_operand)
        × (stages_of (one "$count" (string_value (97 ∷ 0 ∷ [])) ∷ []) ≡ Err bad_operand)
        × (stages_of (one "$count" (number 1) ∷ []) ≡ Err bad_operand)
        × (is_ok (stages_of (one "$count" (text "a$") ∷ [])) ≡ true) }
    ensures operands { (stages_of (one "$match" (number 5) ∷ []) ≡ Err bad_operand)
        × (stages_of (one "$match" (inner "a" (inner "$foo" (number 1))) ∷ []) ≡ Err unknown_operator)
        × (stages_of (one "$project" (document_value no_fields) ∷ []) ≡ Err bad_operand)
        × (stages_of (one "$group" (document_value no_fields) ∷ []) ≡ Err bad_operand)
        × (stages_of (one "$sort" (inner "a" (number 2)) ∷ []) ≡ Err bad_operand) }
    ensures many { stages_of (repeated 1001 (one "$lookup" (number 1))) ≡ Err bad_operand }
{}

/// After the front of `$match` and `$project` stages: a sort with its limit, a limit, a group or a count belongs to the half; the merge begins at `$skip` or
/// `$limit`, or after them. A skip never belongs to the half.
pub fn split()
    ensures sort_skip_limit { split_of (one "$match" (document_value no_fields) ∷ one "$sort" (inner "a" (number 1)) ∷ one "$skip" (number 2)
        ∷ one "$limit" (number 3) ∷ one "$count" (text "n") ∷ [])
        ≡ Ok (
          record { span = whole_span ∷ []; stages = match_stage no_clauses ∷ sort_stage by_a ∷ limit_stage 5 ∷ []; last = documents_end },
          record { joining = joined_in_order by_a; stages = skip_stage 2 ∷ limit_stage 3 ∷ count_stage (codes "n") ∷ [] },
        ) }
    ensures sort_limit { split_of (one "$sort" (inner "a" (number 1)) ∷ one "$limit" (number 3) ∷ one "$skip" (number 2) ∷ [])
        ≡ Ok (
          record { span = whole_span ∷ []; stages = sort_stage by_a ∷ limit_stage 3 ∷ []; last = documents_end },
          record { joining = joined_in_order by_a; stages = limit_stage 3 ∷ skip_stage 2 ∷ [] },
        ) }
    ensures sort { split_of (one "$sort" (inner "a" (number 1)) ∷ one "$skip" (number 2) ∷ [])
        ≡ Ok (
          record { span = whole_span ∷ []; stages = sort_stage by_a ∷ []; last = documents_end },
          record { joining = joined_in_order by_a; stages = skip_stage 2 ∷ [] },
        ) }
    ensures group { split_of (one "$group" (inner "_id" null_value) ∷ one "$skip" (number 2) ∷ [])
        ≡ Ok (
          record { span = whole_span ∷ []; stages = []; last = partials_end (record { key = constant_operand null_value; fields = [] }) },
          record { joining = joined_groups (record { key = constant_operand null_value; fields = [] }); stages = skip_stage 2 ∷ [] },
        ) }
    ensures count { split_of (one "$count" (text "n") ∷ one "$limit" (number 2) ∷ [])
        ≡ Ok (record { span = whole_span ∷ []; stages = []; last = counted_end }, record { joining = joined_counts (codes "n"); stages = limit_stage 2 ∷ [] }) }
    ensures skip_limit { split_of (one "$skip" (number 2) ∷ one "$limit" (number 2) ∷ [])
        ≡ Ok (
          record { span = whole_span ∷ []; stages = limit_stage 4 ∷ []; last = documents_end },
          record { joining = joined_as_they_come; stages = skip_stage 2 ∷ limit_stage 2 ∷ [] },
        ) }
    ensures limit { split_of (one "$limit" (number 2) ∷ one "$sort" (inner "a" (number 1)) ∷ [])
        ≡ Ok (
          record { span = whole_span ∷ []; stages = limit_stage 2 ∷ []; last = documents_end },
          record { joining = joined_as_they_come; stages = limit_stage 2 ∷ sort_stage by_a ∷ [] },
        ) }
    ensures skip { split_of (one "$skip" (number 2) ∷ []) ≡ Ok
        (record { span = whole_span ∷ []; stages = []; last = documents_end }, record { joining = joined_as_they_come; stages = skip_stage 2 ∷ [] }) }
    ensures reach { (reach 2 3 ≡ 5) × (reach (2 ^ 64 - 1) 2 ≡ 2 ^ 64 - 1) }
{}

/// The span of all leading `$match` stages together; a `$match` after another stage adds none.
pub fn spans()
    ensures together { result_map_both (λ s. s.0.span) (λ e. e)
        (split_of (one "$match" (inner "a" (number 1)) ∷ one "$match" (inner "_id" (inner "$in" (array (number 6 ∷ number 5 ∷ []))))
        ∷ one "$match" (inner "_id" (inner "$lt" (number 6))) ∷ []))
        ≡ Ok (point_span (number 5) ∷ []) }
    ensures behind { result_map_both (λ s. s.0.span) (λ e. e)
        (split_of (one "$project" (inner "_id" (text "$x")) ∷ one "$match" (inner "_id" (number 2)) ∷ [])) ≡ Ok (whole_span ∷ []) }
{}
