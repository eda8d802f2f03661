//! The laws of commands and answers, and worked requests: each is a function that does nothing, whose contract says what the definitions say of it.
#![tactic(auto)]

mod admin_requests;
mod cursor_requests;
mod find_requests;
mod laws;
mod write_requests;

ghost use Rattle.std.specs.Prelude.{◌≡◌, ◌∷◌, [], codes, true, false, pos, negsuc, Some, None, Ok, Err};
ghost use Rattle.bson_model.specs.Faults.{string_fault};
ghost use Rattle.bson_model.specs.Tree.{array_value, boolean_value, document_value, int32_value, int64_value, item, field, no_items, no_fields, string_value, timestamp_value};
ghost use Rattle.opmsg_model.specs.Requests.{faulty_body, msg_form, query_form, read_body};
ghost use Rattle.base_model.specs.Refusals.{no_evidence, place_evidence, without_evidence};
ghost use Rattle.base_model.specs.Errors.{bad_value, command_not_found, failed_to_parse, invalid_bson, invalid_namespace, shard_key_not_found, type_mismatch};
ghost use Rattle.history_model.specs.History.{delete_operation, insert_operation, update_operation};
ghost use Rattle.command_model.specs.Command.{command_of, count_command, find_command, kill_command, legacy_command, more_command, ping_command, write_command};
ghost use Rattle.command_model.specs.Writes.{delete_kind, insert_kind, update_kind};
ghost use Rattle.command_laws.specs.SampleCommands.{change_one, database_d, delete_with, dotted, id_only, insert_of, insert_two, insert_with, message, number_one, sent_as, set_one, taken_out, update_two, update_with, with_sequence, without_id, id_is_one};
ghost use Rattle.command_model.specs.Answers.{answer_document, refusal_answer, write_answer, count_answer, first_answer, killed_answer, next_answer};
ghost use Rattle.pipeline_model.specs.Stages.{count_stage, limit_stage, match_stage, skip_stage};

pub use admin_requests::{
    admin_answers, admin_commands, refused_full_names, refused_middles, refused_shard_keys,
};
pub use cursor_requests::{cursor_answers, named_cursors};
pub use find_requests::{
    readings, refused_aggregates, refused_concerns, refused_fields, time_limits,
};
pub use laws::{answers_are_small, commands_are_small, evidence_is_small, numbers_are_small};
pub use write_requests::{
    client_numbers, numbered_answers, numbers_without_sessions, refused_numbers, refused_sessions,
};

/// Requests that are commands.
pub fn commands()
    ensures insert { command_of (message (insert_of (id_only number_one))) ≡ Ok (write_command (record { kind = insert_kind; namespace = codes "d.c"; operations = insert_operation (id_only number_one) ∷ []; ordered = true; number = None })) }
    ensures ping { command_of (message (field (codes "ping") number_one database_d)) ≡ Ok ping_command }
    ensures handshake { command_of (sent_as query_form (read_body (field (codes "isMaster") (boolean_value true) (field (codes "helloOk") (boolean_value true) no_fields)) [])) ≡ Ok (legacy_command (record { shows_hello_ok = true })) }
    ensures passed_over { command_of (message (field (codes "ping") number_one (field (codes "x") number_one (field (codes "x") number_one database_d)))) ≡ Ok ping_command }
    ensures sequence { command_of (with_sequence (insert_with database_d) (codes "documents") (id_only number_one ∷ [])) ≡ Ok (write_command (record { kind = insert_kind; namespace = codes "d.c"; operations = insert_operation (id_only number_one) ∷ []; ordered = true; number = None })) }
    ensures update { command_of (message (update_with (set_one (id_only number_one) no_fields))) ≡ Ok (write_command (record { kind = update_kind; namespace = codes "d.c"; operations = update_operation (id_only number_one) change_one false ∷ []; ordered = true; number = None })) }
    ensures upsert { command_of (message (update_with (set_one (id_only number_one) (field (codes "upsert") (boolean_value true) (field (codes "multi") (boolean_value true) no_fields))))) ≡ Ok (write_command (record { kind = update_kind; namespace = codes "d.c"; operations = update_operation (id_only number_one) change_one true ∷ []; ordered = true; number = None })) }
    ensures no_upsert { command_of (message (update_with (set_one (id_only number_one) (field (codes "upsert") (boolean_value false) (field (codes "multi") (boolean_value true) no_fields))))) ≡ Ok (write_command (record { kind = update_kind; namespace = codes "d.c"; operations = update_operation (id_only number_one) change_one false ∷ []; ordered = true; number = None })) }
    ensures one_upsert { command_of (message (update_with (set_one (id_only number_one) (field (codes "upsert") (boolean_value true) (field (codes "multi") (boolean_value false) no_fields))))) ≡ Ok (write_command (record { kind = update_kind; namespace = codes "d.c"; operations = update_operation (id_only number_one) change_one true ∷ []; ordered = true; number = None })) }
    ensures update_sequence { command_of (with_sequence (field (codes "update") (string_value (codes "c")) database_d) (codes "updates") (set_one (id_only number_one) no_fields ∷ [])) ≡ Ok (write_command (record { kind = update_kind; namespace = codes "d.c"; operations = update_operation (id_only number_one) change_one false ∷ []; ordered = true; number = None })) }
    ensures delete_sequence { command_of (with_sequence (field (codes "delete") (string_value (codes "c")) database_d) (codes "deletes") (taken_out (id_only number_one) number_one ∷ [])) ≡ Ok (write_command (record { kind = delete_kind; namespace = codes "d.c"; operations = delete_operation (id_only number_one) ∷ []; ordered = true; number = None })) }
    ensures delete { command_of (message (delete_with (taken_out (id_only number_one) (int64_value (pos 0))))) ≡ Ok (write_command (record { kind = delete_kind; namespace = codes "d.c"; operations = delete_operation (id_only number_one) ∷ []; ordered = true; number = None })) }
    ensures find { command_of (message (field (codes "find") (string_value (codes "c")) (field (codes "filter") (document_value (id_only number_one)) database_d))) ≡ Ok (find_command (record { reading = record { namespace = codes "d.c"; stages = match_stage id_is_one ∷ []; at = None; after = None }; batches = record { size = None; single = false } })) }
{}

/// Requests that read.
pub fn reads()
    ensures whole { command_of (message (field (codes "find") (string_value (codes "c")) database_d)) ≡
        Ok (find_command (record { reading = record { namespace = codes "d.c"; stages = []; at = None; after = None }; batches = record { size = None; single = false } })) }
    ensures part { command_of (message (field (codes "find") (string_value (codes "c")) (field (codes "limit") number_one (field (codes "skip") (int64_value (pos 2)) (field (codes "batchSize") (int32_value (pos 0)) (field (codes "singleBatch") (boolean_value true) database_d)))))) ≡
        Ok (find_command (record { reading = record { namespace = codes "d.c"; stages = skip_stage 2 ∷ limit_stage 1 ∷ []; at = None; after = None }; batches = record { size = Some 0; single = true } })) }
    ensures no_limit { command_of (message (field (codes "find") (string_value (codes "c")) (field (codes "limit") (int32_value (pos 0)) database_d))) ≡
        Ok (find_command (record { reading = record { namespace = codes "d.c"; stages = []; at = None; after = None }; batches = record { size = None; single = false } })) }
    ensures later { command_of (message (field (codes "find") (string_value (codes "c")) (field (codes "readConcern") (document_value (field (codes "afterClusterTime") (timestamp_value 7) no_fields)) database_d))) ≡
        Ok (find_command (record { reading = record { namespace = codes "d.c"; stages = []; at = None; after = Some 7 }; batches = record { size = None; single = false } })) }
    ensures two_times { command_of (message (field (codes "find") (string_value (codes "c")) (field (codes "readConcern") (document_value (field (codes "level") (string_value (codes "snapshot")) (field (codes "atClusterTime") (timestamp_value 7) (field (codes "afterClusterTime") (timestamp_value 7) no_fields)))) database_d))) ≡ Err (without_evidence bad_value) }
    ensures negative { command_of (message (field (codes "find") (string_value (codes "c")) (field (codes "skip") (int32_value (negsuc 0)) database_d))) ≡ Err (without_evidence bad_value) }
    ensures no_number { command_of (message (field (codes "find") (string_value (codes "c")) (field (codes "skip") (boolean_value true) database_d))) ≡ Err (without_evidence type_mismatch) }
    ensures filter_fault { command_of (message (field (codes "find") (string_value (codes "c")) (field (codes "filter") (document_value (field (codes "$where") number_one no_fields)) database_d))) ≡ Err (without_evidence bad_value) }
    ensures count { command_of (message (field (codes "count") (string_value (codes "c")) (field (codes "query") (document_value (id_only number_one)) database_d))) ≡
        Ok (count_command (record { namespace = codes "d.c"; stages = match_stage id_is_one ∷ count_stage (codes "n") ∷ []; at = None; after = None })) }
    ensures aggregate { command_of (message (field (codes "aggregate") (string_value (codes "c")) (field (codes "pipeline") (array_value (item (document_value (field (codes "$skip") number_one no_fields)) no_items)) (field (codes "cursor") (document_value (field (codes "batchSize") (int32_value (pos 5)) no_fields)) database_d)))) ≡
        Ok (find_command (record { reading = record { namespace = codes "d.c"; stages = skip_stage 1 ∷ []; at = None; after = None }; batches = record { size = Some 5; single = false } })) }
    ensures no_cursor { command_of (message (field (codes "aggregate") (string_value (codes "c")) (field (codes "pipeline") (array_value no_items) database_d))) ≡ Err (without_evidence failed_to_parse) }
    ensures whole_database { command_of (message (field (codes "aggregate") number_one database_d)) ≡ Err (without_evidence type_mismatch) }
    ensures more { command_of (message (field (codes "getMore") (int64_value (pos 3)) (field (codes "collection") (string_value (codes "c")) (field (codes "batchSize") number_one database_d)))) ≡ Ok (more_command (record { namespace = codes "d.c"; cursor = pos 3; size = Some 1 })) }
    ensures no_collection { command_of (message (field (codes "getMore") (int64_value (pos 3)) database_d)) ≡ Err (without_evidence failed_to_parse) }
    ensures wrong_collection { command_of (message (field (codes "getMore") (int64_value (pos 3)) (field (codes "collection") (string_value (codes ".c")) (field (codes "batchSize") (boolean_value true) database_d)))) ≡ Err (without_evidence invalid_namespace) }
    ensures kill { command_of (message (field (codes "killCursors") (string_value (codes "c")) (field (codes "cursors") (array_value (item (int64_value (pos 3)) (item number_one no_items))) database_d))) ≡ Ok (kill_command (record { namespace = codes "d.c"; cursors = pos 3 ∷ pos 1 ∷ [] })) }
    ensures no_cursors { command_of (message (field (codes "killCursors") (string_value (codes "c")) (field (codes "cursors") (array_value (item (boolean_value true) no_items)) database_d))) ≡ Err (without_evidence type_mismatch) }
{}

/// A document that is not BSON is refused with the offset of its fault as evidence.
pub fn faulty_documents()
    ensures faulty { command_of (sent_as msg_form (faulty_body string_fault 49)) ≡ Err (record { error = invalid_bson; evidence = place_evidence 49 }) }
{}

/// Refusals by the command's name, by `$db` and by the command's own field.
pub fn first_refusals()
    ensures unknown { command_of (message (field (codes "foo") number_one database_d)) ≡ Err (without_evidence command_not_found) }
    ensures empty { command_of (message no_fields) ≡ Err (without_evidence command_not_found) }
    ensures no_database { command_of (message (field (codes "ping") number_one no_fields)) ≡ Err (without_evidence failed_to_parse) }
    ensures database_type { command_of (message (field (codes "ping") number_one (field (codes "$db") number_one no_fields))) ≡ Err (without_evidence type_mismatch) }
    ensures own_type { command_of (message (field (codes "insert") number_one database_d)) ≡ Err (without_evidence type_mismatch) }
    ensures namespace { command_of (message (field (codes "insert") (string_value (codes ".c")) database_d)) ≡ Err (without_evidence invalid_namespace) }
{}

/// Refusals of inserts by the other fields, by a document sequence, because documents are missing, and by a document's `_id`.
pub fn later_refusals()
    ensures given_twice { command_of (message (insert_with (field (codes "ordered") (boolean_value true) (field (codes "ordered") (boolean_value true) database_d)))) ≡ Err (without_evidence failed_to_parse) }
    ensures not_listed { command_of (message (insert_with (field (codes "limit") number_one database_d))) ≡ Err (without_evidence failed_to_parse) }
    ensures field_type { command_of (message (insert_with (field (codes "ordered") number_one database_d))) ≡ Err (without_evidence type_mismatch) }
    ensures field_value { command_of (message (insert_with (field (codes "documents") (array_value no_items) database_d))) ≡ Err (without_evidence bad_value) }
    ensures sequence_beside_field { command_of (with_sequence (insert_of (id_only number_one)) (codes "documents") (id_only number_one ∷ [])) ≡ Err (without_evidence failed_to_parse) }
    ensures no_documents { command_of (message (insert_with database_d)) ≡ Err (without_evidence failed_to_parse) }
    ensures no_key { command_of (message (insert_of without_id)) ≡ Err (without_evidence shard_key_not_found) }
    ensures wrong_key { command_of (message (insert_of (id_only (document_value no_fields)))) ≡ Err (without_evidence bad_value) }
    ensures second_document { command_of (message (insert_two (id_only number_one) (id_only (array_value no_items)))) ≡ Err (without_evidence bad_value) }
{}

/// Refusals of updates and deletes by the fields of a statement, by its key and by its operands, in this order.
pub fn refused_statements()
    ensures not_listed { command_of (message (update_with (set_one (id_only number_one) (field (codes "hint") number_one no_fields)))) ≡ Err (without_evidence failed_to_parse) }
    ensures given_twice { command_of (message (update_with (set_one (id_only number_one) (field (codes "q") (document_value no_fields) no_fields)))) ≡ Err (without_evidence failed_to_parse) }
    ensures change_type { command_of (message (update_with (field (codes "q") (document_value (id_only number_one)) (field (codes "u") (array_value no_items) no_fields)))) ≡ Err (without_evidence type_mismatch) }
    ensures no_change { command_of (message (update_with (field (codes "q") (document_value (id_only number_one)) no_fields))) ≡ Err (without_evidence failed_to_parse) }
    ensures no_limit { command_of (message (delete_with (field (codes "q") (document_value (id_only number_one)) no_fields))) ≡ Err (without_evidence failed_to_parse) }
    ensures limit_value { command_of (message (delete_with (taken_out (id_only number_one) (int32_value (pos 2))))) ≡ Err (without_evidence bad_value) }
    ensures limit_type { command_of (message (delete_with (taken_out (id_only number_one) (boolean_value true)))) ≡ Err (without_evidence type_mismatch) }
    ensures no_key { command_of (message (delete_with (taken_out without_id number_one))) ≡ Err (without_evidence shard_key_not_found) }
    ensures listed_keys { command_of (message (delete_with (taken_out (id_only (document_value (field (codes "$in") (array_value (item number_one no_items)) no_fields))) number_one))) ≡ Err (without_evidence shard_key_not_found) }
    ensures wrong_key { command_of (message (delete_with (taken_out (id_only (document_value (field (codes "a") number_one no_fields))) number_one))) ≡ Err (without_evidence bad_value) }
    ensures fields_first { command_of (message (delete_with (taken_out without_id (int32_value (pos 2))))) ≡ Err (without_evidence bad_value) }
    ensures key_first { command_of (message (update_with (set_one without_id (field (codes "upsert") (boolean_value true) no_fields)))) ≡ Err (without_evidence shard_key_not_found) }
    ensures filter_fault { command_of (message (delete_with (taken_out (field (codes "_id") number_one (field (codes "$where") number_one no_fields)) number_one))) ≡ Err (without_evidence bad_value) }
    ensures other_sequence { command_of (with_sequence (field (codes "update") (string_value (codes "c")) database_d) (codes "documents") (set_one (id_only number_one) no_fields ∷ [])) ≡ Err (without_evidence failed_to_parse) }
    ensures empty_sequence { command_of (with_sequence (field (codes "update") (string_value (codes "c")) database_d) (codes "updates") []) ≡ Err (without_evidence bad_value) }
    ensures no_document { command_of (message (field (codes "update") (string_value (codes "c")) (field (codes "updates") (array_value (item (document_value (set_one without_id no_fields)) (item number_one no_items))) database_d))) ≡ Err (without_evidence type_mismatch) }
    ensures no_filter { command_of (message (update_with (field (codes "u") (document_value change_one) no_fields))) ≡ Err (without_evidence failed_to_parse) }
    ensures no_filter_to_delete { command_of (message (delete_with (field (codes "limit") number_one no_fields))) ≡ Err (without_evidence failed_to_parse) }
    ensures filter_type { command_of (message (update_with (field (codes "q") number_one (field (codes "u") (document_value change_one) no_fields)))) ≡ Err (without_evidence type_mismatch) }
    ensures filter_type_to_delete { command_of (message (delete_with (field (codes "q") number_one (field (codes "limit") number_one no_fields)))) ≡ Err (without_evidence type_mismatch) }
    ensures types_first { command_of (message (update_with (field (codes "u") (array_value no_items) no_fields))) ≡ Err (without_evidence type_mismatch) }
    ensures limit_below { command_of (message (delete_with (taken_out (id_only number_one) (int32_value (negsuc 0))))) ≡ Err (without_evidence bad_value) }
    ensures upsert_type { command_of (message (update_with (set_one (id_only number_one) (field (codes "upsert") number_one no_fields)))) ≡ Err (without_evidence type_mismatch) }
    ensures multi_type { command_of (message (update_with (set_one (id_only number_one) (field (codes "multi") number_one no_fields)))) ≡ Err (without_evidence type_mismatch) }
    ensures first_words { command_of (message (update_two (field (codes "q") (document_value (id_only number_one)) (field (codes "u") (document_value (field (codes "$foo") number_one no_fields)) no_fields)) (set_one without_id no_fields))) ≡ Err (without_evidence bad_value) }
    ensures first_key { command_of (message (update_two (set_one without_id no_fields) (field (codes "q") number_one (field (codes "u") (document_value change_one) no_fields)))) ≡ Err (without_evidence shard_key_not_found) }
    ensures upsert_words { command_of (message (update_with (set_one dotted (field (codes "upsert") (boolean_value true) no_fields)))) ≡ Err (without_evidence bad_value) }
    ensures update_words { command_of (message (update_with (set_one dotted no_fields))) ≡ Ok (write_command (record { kind = update_kind; namespace = codes "d.c"; operations = update_operation dotted change_one false ∷ []; ordered = true; number = None })) }
    ensures change_fault { command_of (message (update_with (field (codes "q") (document_value (id_only number_one)) (field (codes "u") (document_value (field (codes "$foo") number_one no_fields)) no_fields)))) ≡ Err (without_evidence bad_value) }
{}

/// Requests that two checks refuse, of which the earlier decides: the name and `$db`, `$db` and the own field, the own field and another, a field and a
/// sequence, a sequence and a filter that is required, a sequence and a document; and of two documents the first. A request without documents can't also have
/// a bad one, so there is no pair of these two.
pub fn earlier_refusals()
    ensures name_first { command_of (message (field (codes "foo") number_one no_fields)) ≡ Err (without_evidence command_not_found) }
    ensures database_first { command_of (message (field (codes "insert") number_one no_fields)) ≡ Err (without_evidence failed_to_parse) }
    ensures own_first { command_of (message (field (codes "insert") number_one (field (codes "limit") number_one database_d))) ≡ Err (without_evidence type_mismatch) }
    ensures field_first { command_of (with_sequence (insert_with (field (codes "ordered") number_one database_d)) (codes "other") []) ≡ Err (without_evidence type_mismatch) }
    ensures sequence_before_filter { command_of (with_sequence (field (codes "find") (string_value (codes "c")) database_d) (codes "documents") []) ≡ Err (without_evidence failed_to_parse) }
    ensures sequence_before_document { command_of (with_sequence (insert_of without_id) (codes "other") []) ≡ Err (without_evidence failed_to_parse) }
    ensures first_document { command_of (message (insert_two without_id (id_only (document_value no_fields)))) ≡ Err (without_evidence shard_key_not_found) }
{}

/// Answers, as documents: a find's, the refusal of an unknown command, one with evidence, the errors of an insert's statements with and without evidence, an
/// update's with an upserted key, and a delete's.
pub fn answers()
    ensures find { answer_document (first_answer (record { cursor = pos 0; namespace = codes "d.c"; documents = id_only number_one ∷ []; time = 4294967296002 })) ≡
        field (codes "cursor") (document_value
        (field (codes "id") (int64_value (pos 0))
        (field (codes "ns") (string_value (codes "d.c"))
        (field (codes "firstBatch") (array_value (item (document_value (id_only number_one)) no_items))
        (field (codes "atClusterTime") (timestamp_value 4294967296002) no_fields)))))
        (field (codes "ok") number_one
        (field (codes "operationTime") (timestamp_value 4294967296002) no_fields)) }
    ensures refusal { answer_document (refusal_answer (without_evidence command_not_found)) ≡
        field (codes "ok") (int32_value (pos 0))
        (field (codes "errmsg") (string_value (codes "CommandNotFound"))
        (field (codes "code") (int32_value (pos 59))
        (field (codes "codeName") (string_value (codes "CommandNotFound")) no_fields))) }
    ensures evidence { answer_document (refusal_answer (record { error = invalid_bson; evidence = place_evidence 49 })) ≡
        field (codes "ok") (int32_value (pos 0))
        (field (codes "errmsg") (string_value (codes "InvalidBSON"))
        (field (codes "code") (int32_value (pos 22))
        (field (codes "codeName") (string_value (codes "InvalidBSON"))
        (field (codes "evidence") (document_value (field (codes "place") (int64_value (pos 49)) no_fields)) no_fields)))) }
    ensures statements { answer_document (write_answer insert_kind (record { count = 0; modified = 0; upserted = []; errors = record { index = 3; refusal = record { error = invalid_bson; evidence = place_evidence 49 } } ∷ record { index = 4; refusal = record { error = bad_value; evidence = no_evidence } } ∷ []; time = 7 })) ≡
        field (codes "n") (int32_value (pos 0))
        (field (codes "writeErrors") (array_value
        (item (document_value
        (field (codes "index") (int32_value (pos 3))
        (field (codes "code") (int32_value (pos 22))
        (field (codes "errmsg") (string_value (codes "InvalidBSON"))
        (field (codes "evidence") (document_value (field (codes "place") (int64_value (pos 49)) no_fields)) no_fields)))))
        (item (document_value
        (field (codes "index") (int32_value (pos 4))
        (field (codes "code") (int32_value (pos 2))
        (field (codes "errmsg") (string_value (codes "BadValue")) no_fields))))
        no_items)))
        (field (codes "ok") number_one
        (field (codes "operationTime") (timestamp_value 7) no_fields))) }
    ensures update { answer_document (write_answer update_kind (record { count = 2; modified = 1; upserted = record { index = 1; key = number_one } ∷ []; errors = []; time = 7 })) ≡
        field (codes "n") (int32_value (pos 2))
        (field (codes "nModified") (int32_value (pos 1))
        (field (codes "upserted") (array_value
        (item (document_value (field (codes "index") (int32_value (pos 1)) (field (codes "_id") number_one no_fields))) no_items))
        (field (codes "ok") number_one
        (field (codes "operationTime") (timestamp_value 7) no_fields)))) }
    ensures both { answer_document (write_answer update_kind (record { count = 2; modified = 0; upserted = record { index = 1; key = number_one } ∷ []; errors = record { index = 2; refusal = without_evidence bad_value } ∷ []; time = 7 })) ≡
        field (codes "n") (int32_value (pos 2))
        (field (codes "nModified") (int32_value (pos 0))
        (field (codes "upserted") (array_value
        (item (document_value (field (codes "index") (int32_value (pos 1)) (field (codes "_id") number_one no_fields))) no_items))
        (field (codes "writeErrors") (array_value
        (item (document_value
        (field (codes "index") (int32_value (pos 2))
        (field (codes "code") (int32_value (pos 2))
        (field (codes "errmsg") (string_value (codes "BadValue")) no_fields))))
        no_items))
        (field (codes "ok") number_one
        (field (codes "operationTime") (timestamp_value 7) no_fields))))) }
    ensures delete { answer_document (write_answer delete_kind (record { count = 1; modified = 0; upserted = []; errors = []; time = 7 })) ≡
        field (codes "n") number_one (field (codes "ok") number_one (field (codes "operationTime") (timestamp_value 7) no_fields)) }
{}
