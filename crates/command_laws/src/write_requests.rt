//! Worked requests that write in a session, with and without a client's number, and the answers to numbered writes.

ghost use Rattle.std.specs.Prelude.{◌≡◌, ◌∷◌, [], codes, false, pos, negsuc, true, None, Ok, Err};
ghost use Rattle.bson_model.specs.Tree.{array_value, boolean_value, document_value, int32_value, int64_value, item, field, no_items, no_fields, string_value, timestamp_value};
ghost use Rattle.base_model.specs.Refusals.{number_evidence, without_evidence};
ghost use Rattle.base_model.specs.Errors.{bad_value, failed_to_parse, transaction_too_old, type_mismatch};
ghost use Rattle.command_model.specs.Answers.{answer_document, write_answer};
ghost use Rattle.command_model.specs.Command.{command_of, ping_command, write_command};
ghost use Rattle.command_model.specs.Writes.{insert_kind, update_kind};
ghost use Rattle.command_laws.specs.SampleCommands.{database_d, id_only, insert_with, message, number_one, with_sequence, without_id};
ghost use Rattle.command_laws.specs.SampleNumbers.{delete_one, fifteen_sevens, in_session, insert_one, insert_so, number_of, numbered, one_deleted, one_inserted, one_updated, session_of, sevens, transaction, update_one};

/// Writes with a client's number: any whole number, at any position. A session alone numbers nothing.
pub fn client_numbers()
    ensures insert { command_of (insert_one (numbered number_one)) ≡ Ok (write_command (one_inserted (number_of (pos 1)))) }
    ensures long { command_of (insert_one (numbered (int64_value (pos 1)))) ≡ Ok (write_command (one_inserted (number_of (pos 1)))) }
    ensures update { command_of (update_one (numbered (int64_value (negsuc 0)))) ≡ Ok (write_command (one_updated (number_of (negsuc 0)))) }
    ensures delete { command_of (delete_one (numbered (int32_value (negsuc 0)))) ≡ Ok (write_command (one_deleted (number_of (negsuc 0)))) }
    ensures in_front { command_of (insert_one (transaction number_one (in_session no_fields))) ≡ Ok (write_command (one_inserted (number_of (pos 1)))) }
    ensures sequence { command_of (with_sequence (insert_with (in_session (transaction number_one database_d))) (codes "documents") (id_only number_one ∷ []))
        ≡ Ok (write_command (one_inserted (number_of (pos 1)))) }
    ensures session_alone { command_of (insert_one (in_session no_fields)) ≡ Ok (write_command (one_inserted None)) }
{}

/// A number without a session is refused after the fields, and before the statements.
pub fn numbers_without_sessions()
    ensures alone { command_of (insert_one (transaction number_one no_fields)) ≡ Err (without_evidence failed_to_parse) }
    ensures before_key { command_of (insert_so without_id (transaction number_one no_fields)) ≡ Err (without_evidence failed_to_parse) }
    ensures no_documents { command_of (message (insert_with (field (codes "documents") (array_value no_items) (transaction number_one database_d))))
        ≡ Err (without_evidence bad_value) }
    ensures later_field { command_of (insert_one (transaction number_one (field (codes "ordered") number_one no_fields)))
        ≡ Err (without_evidence type_mismatch) }
{}

/// Values that are not a number are refused as fields, in their order.
pub fn refused_numbers()
    ensures boolean { command_of (insert_one (numbered (boolean_value true))) ≡ Err (without_evidence type_mismatch) }
    ensures string { command_of (insert_one (numbered (string_value (codes "1")))) ≡ Err (without_evidence type_mismatch) }
    ensures twice { command_of (insert_one (transaction number_one (numbered number_one))) ≡ Err (without_evidence failed_to_parse) }
    ensures first { command_of (insert_one (in_session (transaction (boolean_value true) (field (codes "x") number_one no_fields))))
        ≡ Err (without_evidence type_mismatch) }
    ensures second { command_of (insert_one (field (codes "x") number_one (numbered (boolean_value true)))) ≡ Err (without_evidence failed_to_parse) }
{}

/// Values that are not a session, fields of transactions that are not supported, and numbers in commands that don't write.
pub fn refused_sessions()
    ensures user { command_of (insert_one (session_of 4 sevens (field (codes "uid") number_one no_fields) no_fields)) ≡ Err (without_evidence failed_to_parse) }
    ensures short { command_of (insert_one (session_of 4 fifteen_sevens no_fields no_fields)) ≡ Err (without_evidence bad_value) }
    ensures subtype { command_of (insert_one (session_of 3 sevens no_fields no_fields)) ≡ Err (without_evidence bad_value) }
    ensures starts { command_of (insert_one (in_session (transaction number_one (field (codes "startTransaction") (boolean_value true) no_fields))))
        ≡ Err (without_evidence failed_to_parse) }
    ensures commits { command_of (insert_one (in_session (transaction number_one (field (codes "autocommit") (boolean_value false) no_fields))))
        ≡ Err (without_evidence failed_to_parse) }
    ensures find { command_of (message (field (codes "find") (string_value (codes "c")) (in_session (transaction number_one database_d))))
        ≡ Err (without_evidence failed_to_parse) }
    ensures ping { command_of (message (field (codes "ping") number_one (transaction (boolean_value true) database_d))) ≡ Ok ping_command }
{}

/// Answers, as documents: to a statement whose session has a greater transaction, and all fields that an update's may have.
pub fn numbered_answers()
    ensures older { answer_document (write_answer insert_kind (record {
      count = 0;
      modified = 0;
      upserted = [];
      errors = record { index = 0; refusal = record { error = transaction_too_old; evidence = number_evidence (negsuc 2) } } ∷ [];
      time = 7;
    })) ≡
        field (codes "n") (int32_value (pos 0))
        (field (codes "writeErrors") (array_value
        (item (document_value
        (field (codes "index") (int32_value (pos 0))
        (field (codes "code") (int32_value (pos 225))
        (field (codes "errmsg") (string_value (codes "TransactionTooOld"))
        (field (codes "evidence") (document_value (field (codes "txnNumber") (int64_value (negsuc 2)) no_fields)) no_fields)))))
        no_items))
        (field (codes "ok") number_one
        (field (codes "operationTime") (timestamp_value 7) no_fields))) }
    ensures all { answer_document (write_answer update_kind (record {
      count = 2;
      modified = 1;
      upserted = record { index = 1; key = number_one } ∷ [];
      errors = record { index = 2; refusal = without_evidence bad_value } ∷ [];
      time = 7;
    })) ≡
        field (codes "n") (int32_value (pos 2))
        (field (codes "nModified") (int32_value (pos 1))
        (field (codes "upserted") (array_value
        (item (document_value (field (codes "index") (int32_value (pos 1)) (field (codes "_id") number_one no_fields))) no_items))
        (field (codes "writeErrors") (array_value
        (item (document_value
        (field (codes "index") (int32_value (pos 2))
        (field (codes "code") (int32_value (pos 2))
        (field (codes "errmsg") (string_value (codes "BadValue")) no_fields))))
        no_items))
        (field (codes "ok") number_one
        (field (codes "operationTime") (timestamp_value 7) no_fields))))) }
{}
