//! Worked requests of `getMore` and `killCursors`, and the answers with cursors.

ghost use Rattle.std.specs.Prelude.{◌≡◌, ◌∷◌, [], codes, pos, negsuc, true, None, Ok, Err};
ghost use Rattle.bson_model.specs.Tree.{array_value, boolean_value, document_value, int32_value, int64_value, item, field, no_items, no_fields, string_value, timestamp_value};
ghost use Rattle.base_model.specs.Refusals.{without_evidence};
ghost use Rattle.base_model.specs.Errors.{failed_to_parse, invalid_namespace, type_mismatch};
ghost use Rattle.base_model.specs.Times.{timestamp};
ghost use Rattle.command_model.specs.Answers.{answer_document, count_answer, killed_answer, next_answer};
ghost use Rattle.command_model.specs.Command.{command_of, kill_command, more_command};
ghost use Rattle.command_laws.specs.SampleCommands.{id_only, message, number_one};
ghost use Rattle.command_laws.specs.SampleReads.{concern, kill_with, more_with, only};

/// Requests with cursors: any whole number may be named. The cursor is checked before the database, and the database before the fields.
pub fn named_cursors()
    ensures below { command_of (more_with (int32_value (negsuc 0)) (only (codes "collection") (string_value (codes "c")))) ≡ Ok (more_command (record { namespace = codes "d.c"; cursor = negsuc 0; size = None })) }
    ensures cursor_type { command_of (more_with (string_value (codes "x")) no_fields) ≡ Err (without_evidence type_mismatch) }
    ensures database { command_of (message (field (codes "getMore") number_one (only (codes "$db") (string_value (codes "admin"))))) ≡ Err (without_evidence invalid_namespace) }
    ensures cursor_first { command_of (message (field (codes "getMore") (boolean_value true) (only (codes "$db") (string_value (codes "admin"))))) ≡ Err (without_evidence type_mismatch) }
    ensures no_concern { command_of (more_with number_one (field (codes "collection") (string_value (codes "c")) (concern no_fields))) ≡ Err (without_evidence failed_to_parse) }
    ensures none_named { command_of (kill_with (only (codes "cursors") (array_value no_items))) ≡ Ok (kill_command (record { namespace = codes "d.c"; cursors = [] })) }
    ensures cursors_type { command_of (kill_with (only (codes "cursors") (int32_value (pos 5)))) ≡ Err (without_evidence type_mismatch) }
    ensures no_cursors { command_of (kill_with no_fields) ≡ Err (without_evidence failed_to_parse) }
    ensures two_named { command_of (kill_with (only (codes "cursors") (array_value (item number_one (item (int64_value (negsuc 0)) no_items))))) ≡ Ok (kill_command (record { namespace = codes "d.c"; cursors = pos 1 ∷ negsuc 0 ∷ [] })) }
{}

/// Answers, as documents: a later batch, a count that does not fit into 32 bits, and cursors that were closed and not found.
pub fn cursor_answers()
    ensures next { answer_document (next_answer (record { cursor = pos 1; namespace = codes "d.c"; documents = id_only number_one ∷ []; time = timestamp 1000 2 })) ≡
        field (codes "cursor") (document_value
        (field (codes "id") (int64_value (pos 1))
        (field (codes "ns") (string_value (codes "d.c"))
        (field (codes "nextBatch") (array_value (item (document_value (id_only number_one)) no_items))
        (only (codes "atClusterTime") (timestamp_value (timestamp 1000 2)))))))
        (field (codes "ok") number_one
        (only (codes "operationTime") (timestamp_value (timestamp 1000 2)))) }
    ensures count { answer_document (count_answer 2147483648 7) ≡
        field (codes "n") (int64_value (pos 2147483648))
        (field (codes "atClusterTime") (timestamp_value 7)
        (field (codes "ok") number_one
        (only (codes "operationTime") (timestamp_value 7)))) }
    ensures killed { answer_document (killed_answer (pos 1 ∷ []) (negsuc 0 ∷ [])) ≡
        field (codes "cursorsKilled") (array_value (item (int64_value (pos 1)) no_items))
        (field (codes "cursorsNotFound") (array_value (item (int64_value (negsuc 0)) no_items))
        (field (codes "cursorsAlive") (array_value no_items)
        (field (codes "cursorsUnknown") (array_value no_items)
        (only (codes "ok") number_one)))) }
{}
