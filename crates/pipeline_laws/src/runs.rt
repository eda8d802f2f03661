//! Outcomes of whole pipelines and of merges, on documents that one can check by hand.

ghost use Rattle.std.specs.Prelude.{◌∷◌, [], codes, negsuc, pos, false, true};
ghost use Rattle.bson_model.specs.Tree.{document_value, null_value};
ghost use Rattle.query_model.specs.SampleQueries.{inner, number, one};
ghost use Rattle.pipeline_model.specs.Operands.{constant_operand, path_operand};
ghost use Rattle.pipeline_model.specs.GroupSpecs.{sum_accumulator};
ghost use Rattle.pipeline_model.specs.Groups.{IsCell, IsGrouped, sum_cell};
ghost use Rattle.pipeline_model.specs.Runs.{listed, overflowed};
ghost use Rattle.pipeline_model.specs.Halves.{counted_rows, document_rows, partial_rows};
ghost use Rattle.pipeline_laws.specs.SamplePipelines.{doc, MergesTo, numbered, RunsTo, sums};
ghost use Rattle.query_model.specs.SampleChanges.{long, text};

/// `[{$match: {x: {$gt: 1}}}, {$group: {_id: "$x", total: {$sum: "$_id"}}}, {$sort: {_id: 1}}]` on (`_id`, x) = (1, 2), (2, 2), (3, 5),
/// (4, 1).
pub fn worked()
    ensures { RunsTo (one "$match" (inner "x" (inner "$gt" (number 1)))
        ∷ one "$group" (document_value (doc (("_id", text "$x") ∷ ("total", inner "$sum" (text "$_id")) ∷ []))) ∷ one "$sort" (inner "_id" (number 1)) ∷ [])
        (numbered 1 2 ∷ numbered 2 2 ∷ numbered 3 5 ∷ numbered 4 1 ∷ [])
        (listed (doc (("_id", number 2) ∷ ("total", number 3) ∷ []) ∷ doc (("_id", number 5) ∷ ("total", number 3) ∷ []) ∷ [])) }
{}

/// Documents that compare equal may come in any order, others only in one.
pub fn ties()
    ensures kept { RunsTo (one "$sort" (inner "x" (number 1)) ∷ []) (numbered 1 2 ∷ numbered 2 2 ∷ []) (listed (numbered 1 2 ∷ numbered 2 2 ∷ [])) }
    ensures exchanged { RunsTo (one "$sort" (inner "x" (number 1)) ∷ []) (numbered 1 2 ∷ numbered 2 2 ∷ []) (listed (numbered 2 2 ∷ numbered 1 2 ∷ [])) }
    ensures wrong { RunsTo (one "$sort" (inner "x" (number 1)) ∷ []) (numbered 1 2 ∷ numbered 2 1 ∷ []) (listed (numbered 1 2 ∷ numbered 2 1 ∷ [])) → ⊥ }
{}

/// Without documents there is no group, and nothing is counted; 5 and 5L are one group, and either may be shown.
pub fn groups()
    ensures nothing { RunsTo (one "$group" (inner "_id" null_value) ∷ []) [] (listed []) }
    ensures none_counted { RunsTo (one "$count" (text "n") ∷ []) [] (listed []) }
    ensures counted { RunsTo (one "$skip" (number 1) ∷ one "$count" (text "n") ∷ []) (numbered 1 2 ∷ numbered 2 2 ∷ [])
        (listed (doc (("n", number 1) ∷ []) ∷ [])) }
    ensures spelled { RunsTo (one "$group" (inner "_id" (text "$x")) ∷ []) (doc (("x", number 5) ∷ []) ∷ doc (("x", long 5) ∷ []) ∷ [])
        (listed (doc (("_id", long 5) ∷ []) ∷ [])) }
    ensures not_apart { IsGrouped (record { key = path_operand (codes "x" ∷ []); fields = [] }) (doc (("x", number 5) ∷ []) ∷ doc (("x", long 5) ∷ []) ∷ [])
        (record { key = number 5; cells = [] } ∷ record { key = long 5; cells = [] } ∷ []) → ⊥ }
{}

/// With M the greatest int64: M and 1 overflow whatever comes later; for two parts M, M and -M, -M the sum is 0L.
pub fn exact_sums()
    ensures overflow { RunsTo (sums ∷ one "$limit" (number 1) ∷ []) (doc (("v", long 9223372036854775807) ∷ []) ∷ doc (("v", number 1) ∷ []) ∷ []) overflowed }
    ensures merged { MergesTo (sums ∷ []) (partial_rows (record { key = null_value; cells = sum_cell (pos 18446744073709551614) false ∷ [] } ∷ [])
        ∷ partial_rows (record { key = null_value; cells = sum_cell (negsuc 18446744073709551613) false ∷ [] } ∷ []) ∷ [])
        (listed (doc (("_id", null_value) ∷ ("s", long 0) ∷ []) ∷ [])) }
    ensures narrow { IsCell (sum_accumulator (constant_operand null_value)) (sum_cell (pos 1) true ∷ sum_cell (pos 2) false ∷ []) (sum_cell (pos 3) true) → ⊥ }
{}

/// Two parts, each in order and its first 4: `$sort x`, `$skip 1`, `$limit 3`. Counts of parts add.
pub fn merged()
    ensures sorted { MergesTo (one "$sort" (inner "x" (number 1)) ∷ one "$skip" (number 1) ∷ one "$limit" (number 3) ∷ [])
        (document_rows (numbered 1 1 ∷ numbered 2 2 ∷ numbered 3 2 ∷ []) ∷ document_rows (numbered 11 1 ∷ numbered 12 2 ∷ []) ∷ [])
        (listed (numbered 11 1 ∷ numbered 2 2 ∷ numbered 3 2 ∷ [])) }
    ensures counts { MergesTo (one "$count" (text "n") ∷ []) (counted_rows 2 ∷ counted_rows 0 ∷ counted_rows 3 ∷ [])
        (listed (doc (("n", number 5) ∷ []) ∷ [])) }
    ensures no_part { MergesTo (one "$count" (text "n") ∷ []) [] (listed []) }
    ensures as_they_come { MergesTo (one "$limit" (number 3) ∷ [])
        (document_rows (numbered 1 1 ∷ numbered 2 1 ∷ []) ∷ document_rows (numbered 11 1 ∷ numbered 12 1 ∷ []) ∷ [])
        (listed (numbered 1 1 ∷ numbered 2 1 ∷ numbered 11 1 ∷ [])) }
{}
