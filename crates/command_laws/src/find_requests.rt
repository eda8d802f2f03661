//! Worked requests of `find`, `aggregate` and `count`.

ghost use Rattle.std.specs.Prelude.{◌≡◌, ◌∷◌, [], codes, true, false, pos, negsuc, replicate, None, Some, Ok, Err};
ghost use Rattle.bson_model.specs.Tree.{array_value, boolean_value, document_value, int32_value, int64_value, item, field, joined, no_items, no_fields, string_value, timestamp_value};
ghost use Rattle.base_model.specs.Refusals.{without_evidence};
ghost use Rattle.base_model.specs.Errors.{bad_value, failed_to_parse, type_mismatch};
ghost use Rattle.pipeline_model.specs.Projections.{include_it};
ghost use Rattle.pipeline_model.specs.SortKeys.{descending};
ghost use Rattle.pipeline_model.specs.Stages.{count_stage, limit_stage, match_stage, project_stage, skip_stage, sort_stage};
ghost use Rattle.query_model.specs.Queries.{no_clauses};
ghost use Rattle.command_model.specs.Command.{command_of, count_command, time_limit};
ghost use Rattle.command_laws.specs.SampleCommands.{database_d, id_is_one, id_only, number_one, with_sequence, without_id};
ghost use Rattle.command_laws.specs.SampleReads.{aggregate_with, at_seven, concern, count_with, find_with, five_with, found, four_with, only, plain_pipeline, read_of, told_each};

/// What is read: the stages in their own order and not in that of the fields, where 0 is like no field; and the time.
pub fn readings()
    ensures stages { command_of (find_with
        (field (codes "projection") (document_value without_id)
        (field (codes "limit") number_one
        (field (codes "skip") (int32_value (pos 2))
        (field (codes "sort") (document_value (only (codes "x") (int32_value (negsuc 0))))
        (only (codes "filter") (document_value (id_only number_one)))))))) ≡
        Ok (found (match_stage id_is_one
        ∷ sort_stage (record { path = codes "x" ∷ []; direction = descending } ∷ [])
        ∷ skip_stage 2
        ∷ limit_stage 1
        ∷ project_stage (record { name = codes "x"; treatment = include_it } ∷ [])
        ∷ []) None None) }
    ensures no_skip { command_of (find_with (only (codes "skip") (int32_value (pos 0)))) ≡ Ok (found [] None None) }
    ensures counted { command_of (count_with (field (codes "query") (document_value no_fields) (field (codes "skip") number_one (only (codes "limit") (int32_value (pos 0)))))) ≡
        Ok (count_command (read_of (match_stage no_clauses ∷ skip_stage 1 ∷ count_stage (codes "n") ∷ []) None None)) }
    ensures any_size { command_of (aggregate_with (plain_pipeline no_fields)) ≡ Ok (found [] None None) }
    ensures find_at { command_of (find_with (concern (at_seven (string_value (codes "snapshot"))))) ≡ Ok (found [] (Some 7) None) }
    ensures aggregate_at { command_of (aggregate_with (plain_pipeline (concern (at_seven (string_value (codes "snapshot")))))) ≡ Ok (found [] (Some 7) None) }
    ensures count_at { command_of (count_with (concern (at_seven (string_value (codes "snapshot"))))) ≡ Ok (count_command (read_of (count_stage (codes "n") ∷ []) (Some 7) None)) }
    ensures count_after { command_of (count_with (concern (only (codes "afterClusterTime") (timestamp_value 7)))) ≡ Ok (count_command (read_of (count_stage (codes "n") ∷ []) None (Some 7))) }
{}

/// Read concerns that are refused: a time without the level `snapshot`, after the fields have passed; an unknown level.
pub fn refused_concerns()
    ensures no_level { command_of (find_with (concern (only (codes "atClusterTime") (timestamp_value 7)))) ≡ Err (without_evidence bad_value) }
    ensures other_level { command_of (find_with (concern (at_seven (string_value (codes "majority"))))) ≡ Err (without_evidence bad_value) }
    ensures level_type { command_of (find_with (concern (field (codes "atClusterTime") (timestamp_value 7) (only (codes "level") (int32_value (pos 5)))))) ≡ Err (without_evidence type_mismatch) }
    ensures not_listed { command_of (find_with (concern (field (codes "atClusterTime") (timestamp_value 7) (only (codes "x") number_one)))) ≡ Err (without_evidence failed_to_parse) }
    ensures time_type { command_of (find_with (concern (only (codes "afterClusterTime") (int32_value (pos 5))))) ≡ Err (without_evidence type_mismatch) }
    ensures no_such_level { command_of (find_with (concern (only (codes "level") (string_value (codes "linearizable"))))) ≡ Err (without_evidence bad_value) }
{}

/// Fields whose values are refused, and fields that no reading command has.
pub fn refused_fields()
    ensures size_below { command_of (find_with (only (codes "batchSize") (int32_value (negsuc 0)))) ≡ Err (without_evidence bad_value) }
    ensures size_type { command_of (find_with (only (codes "batchSize") (boolean_value false))) ≡ Err (without_evidence type_mismatch) }
    ensures single_type { command_of (find_with (only (codes "singleBatch") number_one)) ≡ Err (without_evidence type_mismatch) }
    ensures disk_type { command_of (find_with (only (codes "allowDiskUse") number_one)) ≡ Err (without_evidence type_mismatch) }
    ensures timeout_type { command_of (find_with (only (codes "noCursorTimeout") number_one)) ≡ Err (without_evidence type_mismatch) }
    ensures partial_type { command_of (find_with (only (codes "allowPartialResults") number_one)) ≡ Err (without_evidence type_mismatch) }
    ensures sort_words { command_of (find_with (only (codes "sort") (document_value (only (codes "x") (int32_value (pos 2)))))) ≡ Err (without_evidence bad_value) }
    ensures sort_type { command_of (find_with (only (codes "sort") (int32_value (pos 5)))) ≡ Err (without_evidence type_mismatch) }
    ensures projection_words { command_of (find_with (only (codes "projection") (document_value (field (codes "a") number_one (only (codes "b") (int32_value (pos 0))))))) ≡ Err (without_evidence bad_value) }
    ensures filter_type { command_of (find_with (only (codes "filter") (int32_value (pos 5)))) ≡ Err (without_evidence type_mismatch) }
    ensures no_hint { told_each (five_with (codes "hint") (document_value without_id)) ≡ replicate 5 (Err (without_evidence failed_to_parse)) }
    ensures no_let { told_each (five_with (codes "let") (document_value without_id)) ≡ replicate 5 (Err (without_evidence failed_to_parse)) }
    ensures no_collation { told_each (five_with (codes "collation") (document_value without_id)) ≡ replicate 5 (Err (without_evidence failed_to_parse)) }
{}

/// A time limit is accepted from 0 to 2^31 - 1 milliseconds; 0 is like no limit.
pub fn time_limits()
    ensures taken { told_each (five_with (codes "maxTimeMS") number_one) ≡ told_each (five_with (codes "comment") number_one) }
    ensures one { time_limit (find_with (only (codes "maxTimeMS") number_one)) ≡ 1 }
    ensures greatest { time_limit (find_with (only (codes "maxTimeMS") (int64_value (pos 2147483647)))) ≡ 2147483647 }
    ensures zero { time_limit (find_with (only (codes "maxTimeMS") (int32_value (pos 0)))) ≡ 0 }
    ensures none { time_limit (find_with no_fields) ≡ 0 }
    ensures below { told_each (five_with (codes "maxTimeMS") (int32_value (negsuc 0))) ≡ replicate 5 (Err (without_evidence bad_value)) }
    ensures above { told_each (five_with (codes "maxTimeMS") (int64_value (pos 2147483648))) ≡ replicate 5 (Err (without_evidence bad_value)) }
    ensures kind { told_each (five_with (codes "maxTimeMS") (string_value (codes "x"))) ≡ replicate 5 (Err (without_evidence type_mismatch)) }
{}

/// Options that are accepted where they are false, like no option; their other values are refused, and other commands have none of them.
pub fn false_options()
    ensures taken { told_each (four_with (boolean_value false)) ≡ replicate 4 (Ok (found [] None None)) }
    ensures true_refused { told_each (four_with (boolean_value true)) ≡ replicate 4 (Err (without_evidence failed_to_parse)) }
    ensures number_refused { told_each (four_with (int32_value (pos 0))) ≡ replicate 4 (Err (without_evidence failed_to_parse)) }
    ensures aggregates { command_of (aggregate_with (plain_pipeline (only (codes "returnKey") (boolean_value false)))) ≡ Err (without_evidence failed_to_parse) }
    ensures counts { command_of (count_with (only (codes "tailable") (boolean_value false))) ≡ Err (without_evidence failed_to_parse) }
{}

/// Aggregates that are refused.
pub fn refused_aggregates()
    ensures no_pipeline { command_of (aggregate_with (only (codes "cursor") (document_value no_fields))) ≡ Err (without_evidence failed_to_parse) }
    ensures pipeline_type { command_of (aggregate_with (only (codes "pipeline") (int32_value (pos 5)))) ≡ Err (without_evidence type_mismatch) }
    ensures no_stage { command_of (aggregate_with (only (codes "pipeline") (array_value (item (int32_value (pos 5)) no_items)))) ≡ Err (without_evidence bad_value) }
    ensures cursor_field { command_of (aggregate_with (only (codes "cursor") (document_value without_id))) ≡ Err (without_evidence failed_to_parse) }
    ensures size_below { command_of (aggregate_with (only (codes "cursor") (document_value (only (codes "batchSize") (int32_value (negsuc 0)))))) ≡ Err (without_evidence bad_value) }
    ensures disk_type { command_of (aggregate_with (plain_pipeline (only (codes "allowDiskUse") number_one))) ≡ Err (without_evidence type_mismatch) }
    ensures sequence { command_of (with_sequence (field (codes "aggregate") (string_value (codes "c")) (joined (plain_pipeline no_fields) database_d)) (codes "pipeline") []) ≡ Err (without_evidence failed_to_parse) }
{}
