//! Paths, connectives and keys on values that one can check by hand.

ghost use Rattle.std.specs.Prelude.{◌≡◌, [], ◌∷◌, codes, false, is_ok, pos, true, Err, None, Ok, Some};
ghost use Rattle.bson_model.specs.Tree.{document_value, int64_value, min_key_value, no_fields, null_value, string_value};
ghost use Rattle.value_model.specs.Keys.{point_span};
ghost use Rattle.query_model.specs.Paths.{candidates_at, digits_part, dollar_part, empty_part, has_gap, read_path, too_long, values_at};
ghost use Rattle.query_model.specs.DocumentKeys.{key_asked_in};
ghost use Rattle.query_model.specs.KeySpans.{whole_span};
ghost use Rattle.query_model.specs.SampleQueries.{answer, array, asked_of, between, dotted, equal_of, inner, number, one, span_of_filter, two};

/// The parts are judged from the left; what is too long has no other fault.
pub fn paths()
    ensures read { read_path (codes "a.b1.1b.-1.c$") ≡ Ok (codes "a" ∷ codes "b1" ∷ codes "1b" ∷ codes "-1" ∷ codes "c$" ∷ []) }
    ensures any_byte { read_path (0x61 ∷ 0x00 ∷ 0x2E ∷ 0xC3 ∷ 0xA9 ∷ []) ≡ Ok ((0x61 ∷ 0x00 ∷ []) ∷ (0xC3 ∷ 0xA9 ∷ []) ∷ []) }
    ensures empty { (read_path [] ≡ Err empty_part)
        × (read_path (codes "a.") ≡ Err empty_part)
        × (read_path (codes "a..0") ≡ Err empty_part)
        × (read_path (codes ".a") ≡ Err empty_part) }
    ensures digits { (read_path (codes "0") ≡ Err digits_part)
        × (read_path (codes "a.07") ≡ Err digits_part)
        × (read_path (codes "0..$b") ≡ Err digits_part) }
    ensures dollar { (read_path (codes "a.$b") ≡ Err dollar_part) × (read_path (codes "$b.0") ≡ Err dollar_part) }
    ensures long { (is_ok (read_path (dotted 99)) ≡ true)
        × (read_path (dotted 100) ≡ Err too_long)
        × (read_path (0x30 ∷ 0x2E ∷ dotted 100) ≡ Err digits_part) }
{}

/// At `a.b`: of `{a: [{b: 5}, 7, [{b: 6}]]}` the value 5 and no gap; of `{a: [{c: 1}, {b: 2}]}` the value 2 and a gap; of `{}`, `{a: 5}`
/// and `{a: null}` a gap alone; of `{a: []}` and `{a: [1, 2]}` neither.
pub fn values()
    ensures elements { (values_at (codes "a" ∷ codes "b" ∷ []) (one "a" (array (inner "b" (number 5) ∷ number 7 ∷ array (inner "b" (number 6) ∷ []) ∷ [])))
        ≡ number 5 ∷ [])
        × (has_gap (codes "a" ∷ codes "b" ∷ []) (one "a" (array (inner "b" (number 5) ∷ number 7 ∷ array (inner "b" (number 6) ∷ []) ∷ []))) ≡ false) }
    ensures beside_gap { (values_at (codes "a" ∷ codes "b" ∷ []) (one "a" (array (inner "c" (number 1) ∷ inner "b" (number 2) ∷ []))) ≡ number 2 ∷ [])
        × (has_gap (codes "a" ∷ codes "b" ∷ []) (one "a" (array (inner "c" (number 1) ∷ inner "b" (number 2) ∷ []))) ≡ true) }
    ensures gaps { (has_gap (codes "a" ∷ codes "b" ∷ []) no_fields ≡ true)
        × (has_gap (codes "a" ∷ codes "b" ∷ []) (one "a" (number 5)) ≡ true)
        × (has_gap (codes "a" ∷ codes "b" ∷ []) (one "a" null_value) ≡ true)
        × (values_at (codes "a" ∷ codes "b" ∷ []) (one "a" (number 5)) ≡ []) }
    ensures neither { (values_at (codes "a" ∷ codes "b" ∷ []) (one "a" (array (number 1 ∷ number 2 ∷ []))) ≡ [])
        × (has_gap (codes "a" ∷ codes "b" ∷ []) (one "a" (array (number 1 ∷ number 2 ∷ []))) ≡ false)
        × (has_gap (codes "a" ∷ codes "b" ∷ []) (one "a" (array [])) ≡ false) }
    ensures further { has_gap (codes "a" ∷ codes "b" ∷ codes "c" ∷ []) (one "a" (array (inner "b" (inner "c" null_value) ∷ inner "b" (number 1) ∷ []))) ≡ true }
    ensures first { values_at (codes "a" ∷ []) (two "a" (number 1) "a" (number 2)) ≡ number 1 ∷ [] }
    ensures whole { (values_at (codes "a" ∷ []) (one "a" (array (number 1 ∷ []))) ≡ array (number 1 ∷ []) ∷ [])
        × (candidates_at (codes "a" ∷ []) (one "a" (array (number 1 ∷ []))) ≡ array (number 1 ∷ []) ∷ number 1 ∷ []) }
{}

/// All clauses of a query hold; `$and`, `$or` and `$nor` look at the whole document. `{}` holds of each.
pub fn clauses()
    ensures empty { answer no_fields (one "a" (number 5)) ≡ Ok true }
    ensures each { (answer (two "a" (number 5) "b" (number 1)) (two "a" (number 5) "b" (number 1)) ≡ Ok true)
        × (answer (two "a" (number 5) "b" (number 2)) (two "a" (number 5) "b" (number 1)) ≡ Ok false)
        × (answer (two "a" (number 5) "a" (number 6)) (one "a" (number 5)) ≡ Ok false) }
    ensures every { (answer (one "$and" (array (inner "a" (number 5) ∷ inner "b" (number 1) ∷ []))) (two "a" (number 5) "b" (number 1)) ≡ Ok true)
        × (answer (one "$and" (array (inner "a" (number 5) ∷ inner "b" (number 2) ∷ []))) (two "a" (number 5) "b" (number 1)) ≡ Ok false)
        × (answer (one "$and" (array (document_value no_fields ∷ []))) no_fields ≡ Ok true) }
    ensures some { (answer (one "$or" (array (inner "a" (number 6) ∷ inner "b" (number 1) ∷ []))) (two "a" (number 5) "b" (number 1)) ≡ Ok true)
        × (answer (one "$or" (array (inner "a" (number 6) ∷ inner "b" (number 2) ∷ []))) (two "a" (number 5) "b" (number 1)) ≡ Ok false) }
    ensures none { (answer (one "$nor" (array (inner "a" (number 6) ∷ inner "b" (number 2) ∷ []))) (two "a" (number 5) "b" (number 1)) ≡ Ok true)
        × (answer (one "$nor" (array (inner "a" (number 5) ∷ inner "b" (number 2) ∷ []))) (two "a" (number 5) "b" (number 1)) ≡ Ok false) }
    ensures beside { answer (two "$or" (array (inner "a" (number 5) ∷ [])) "b" (number 2)) (two "a" (number 5) "b" (number 1)) ≡ Ok false }
{}

/// `{}` and `{b: 1, $gt: 1}` are plain values, and operands are, whatever is in them: `{a: {$in: [{$gt: 1}]}}` looks for the document
/// `{$gt: 1}`. A name is a path, so that a field which is itself called `a.b` is not reached.
pub fn plain_values()
    ensures empty { (answer (one "a" (document_value no_fields)) (one "a" (document_value no_fields)) ≡ Ok true)
        × (answer (one "a" (document_value no_fields)) (one "a" (number 5)) ≡ Ok false) }
    ensures first { (answer (one "a" (document_value (two "b" (number 1) "$gt" (number 1)))) (one "a" (document_value (two "b" (number 1) "$gt" (number 1))))
        ≡ Ok true)
        × (answer (one "a" (document_value (two "b" (number 1) "$gt" (number 1)))) (one "a" (number 5)) ≡ Ok false) }
    ensures operands { (answer (one "a" (inner "$in" (array (inner "$gt" (number 1) ∷ [])))) (one "a" (inner "$gt" (number 1))) ≡ Ok true)
        × (answer (one "a" (inner "$in" (array (inner "$gt" (number 1) ∷ [])))) (one "a" (number 5)) ≡ Ok false) }
    ensures numbers { (answer (one "a" (int64_value (pos 5))) (one "a" (number 5)) ≡ Ok true)
        × (answer (one "a" (string_value (codes "5"))) (one "a" (number 5)) ≡ Ok false) }
    ensures dotted { (answer (one "a.b" (number 1)) (one "a.b" (number 1)) ≡ Ok false) × (answer (one "a.b" (number 1)) (one "a" (inner "b" (number 1))) ≡ Ok true) }
    ensures order { answer (one "a" (document_value (two "b" (number 1) "c" (number 2)))) (one "a" (document_value (two "c" (number 2) "b" (number 1))))
        ≡ Ok false }
{}

/// The first equality on `_id` is targeted, also one by `$eq` beside other operators, and none inside an operator.
pub fn keys()
    ensures plain { (asked_of (one "_id" (number 5)) ≡ Ok (Some (number 5)))
        × (asked_of (two "x" (number 1) "_id" (number 5)) ≡ Ok (Some (number 5)))
        × (asked_of (one "x" (number 5)) ≡ Ok None) }
    ensures beside { (asked_of (one "_id" (document_value (two "$eq" (number 5) "$gt" (number 3)))) ≡ Ok (Some (number 5)))
        × (asked_of (one "_id" (document_value (two "$gt" (number 3) "$eq" (number 5)))) ≡ Ok (Some (number 5))) }
    ensures first { (asked_of (two "_id" (number 5) "_id" (number 6)) ≡ Ok (Some (number 5)))
        × (asked_of (two "_id" (inner "$gt" (number 3)) "_id" (number 6)) ≡ Ok (Some (number 6))) }
    ensures none { (asked_of (one "_id" (inner "$in" (array (number 5 ∷ [])))) ≡ Ok None)
        × (asked_of (one "$and" (array (inner "_id" (number 5) ∷ []))) ≡ Ok None)
        × (asked_of (one "_id.a" (number 5)) ≡ Ok None)
        × (asked_of (one "_id" (inner "$not" (inner "$eq" (number 5)))) ≡ Ok None)
        × (asked_of (one "_id" (inner "$ne" (number 5))) ≡ Ok None) }
    ensures no_key { (asked_of (one "_id" (array (number 5 ∷ []))) ≡ Ok (Some (array (number 5 ∷ []))))
        × (equal_of (one "_id" (array (number 5 ∷ []))) ≡ Ok None)
        × (equal_of (one "_id" min_key_value) ≡ Ok None)
        × (equal_of (two "_id" (inner "$eq" (inner "a" (number 1))) "_id" (number 5)) ≡ Ok None)
        × (equal_of (one "_id" null_value) ≡ Ok (Some null_value)) }
    ensures points { (span_of_filter (one "_id" (number 5)) ≡ Ok (point_span (number 5) ∷ []))
        × (span_of_filter (one "_id" (inner "$in" (array (number 7 ∷ min_key_value ∷ number 5 ∷ number 7 ∷ []))))
        ≡ Ok (point_span (number 5) ∷ point_span (number 7) ∷ []))
        × (span_of_filter (one "_id" (document_value (two "$in" (array (number 7 ∷ number 5 ∷ [])) "$lt" (number 6)))) ≡ Ok (point_span (number 5) ∷ []))
        × (span_of_filter (two "_id" (number 5) "_id" (number 6)) ≡ Ok (point_span (number 5) ∷ []))
        × (span_of_filter (one "_id" (inner "$in" (array []))) ≡ Ok [])
        × (span_of_filter (one "_id" (array (number 5 ∷ []))) ≡ Ok []) }
    ensures ranges { (span_of_filter (one "_id" (document_value (two "$gte" (number 3) "$lt" (number 5)))) ≡ Ok (between (number 3) (number 5) ∷ []))
        × (span_of_filter (one "_id" (document_value (two "$gt" (number 3) "$lte" (number 5))))
        ≡ Ok (between (number 3) (number 5) ∷ point_span (number 5) ∷ []))
        × (span_of_filter (two "_id" (inner "$gte" (number 1)) "$and" (array (inner "_id" (inner "$gte" (number 3)) ∷ inner "_id" (inner "$lt" (number 5)) ∷ [])))
        ≡ Ok (between (number 3) (number 5) ∷ []))
        × (span_of_filter (one "_id" (document_value (two "$gte" (number 5) "$lte" (number 5)))) ≡ Ok (point_span (number 5) ∷ []))
        × (span_of_filter (one "_id" (document_value (two "$gt" (number 5) "$lt" (number 3)))) ≡ Ok []) }
    ensures whole { (span_of_filter (one "x" (number 5)) ≡ Ok (whole_span ∷ []))
        × (span_of_filter (one "_id" (inner "$ne" (number 5))) ≡ Ok (whole_span ∷ []))
        × (span_of_filter (one "_id" (inner "$gt" (inner "a" (number 5)))) ≡ Ok (whole_span ∷ []))
        × (span_of_filter (one "$or" (array (inner "_id" (number 5) ∷ []))) ≡ Ok (whole_span ∷ [])) }
{}

/// A document targets a key whatever else it has, also where it is no query.
pub fn keys_in_documents()
    ensures plain { (key_asked_in (one "_id" (number 5)) ≡ Some (number 5))
        × (key_asked_in (two "$foo" (number 1) "_id" (number 5)) ≡ Some (number 5))
        × (key_asked_in (one "_id" (document_value no_fields)) ≡ Some (document_value no_fields))
        × (key_asked_in (one "_id" (inner "a" (number 1))) ≡ Some (inner "a" (number 1)))
        × (key_asked_in (one "_id" (document_value (two "a" (number 1) "$eq" (number 5)))) ≡ Some (document_value (two "a" (number 1) "$eq" (number 5)))) }
    ensures beside { (key_asked_in (one "_id" (document_value (two "$eq" (number 5) "$foo" (number 3)))) ≡ Some (number 5))
        × (key_asked_in (one "_id" (document_value (two "$foo" (number 3) "$eq" (number 5)))) ≡ Some (number 5))
        × (key_asked_in (one "_id" (document_value (two "$eq" (number 5) "$eq" (number 6)))) ≡ Some (number 5)) }
    ensures first { (key_asked_in (two "_id" (array []) "_id" (number 6)) ≡ Some (array []))
        × (key_asked_in (two "_id" (inner "$foo" (number 3)) "_id" (number 6)) ≡ Some (number 6)) }
    ensures none { (key_asked_in no_fields ≡ None)
        × (key_asked_in (one "_id" (inner "$foo" (number 1))) ≡ None)
        × (key_asked_in (one "_id" (inner "$in" (array (number 5 ∷ [])))) ≡ None)
        × (key_asked_in (one "_id" (inner "$not" (inner "$eq" (number 5)))) ≡ None)
        × (key_asked_in (one "$and" (array (inner "_id" (number 5) ∷ []))) ≡ None)
        × (key_asked_in (one "_id.a" (number 5)) ≡ None)
        × (key_asked_in (one "$eq" (number 5)) ≡ None) }
{}
