//! Worked requests of `shardCollection` and `split`, and their answers.

ghost use Rattle.std.specs.Prelude.{◌≡◌, ◌∷◌, [], codes, pos, true, Ok, Err};
ghost use Rattle.bson_model.specs.Tree.{array_value, boolean_value, document_value, int32_value, int64_value, field, joined, min_key_value, max_key_value, no_items, no_fields, null_value, string_value, timestamp_value};
ghost use Rattle.base_model.specs.Refusals.{without_evidence};
ghost use Rattle.base_model.specs.Errors.{bad_value, failed_to_parse, invalid_namespace, type_mismatch};
ghost use Rattle.base_model.specs.Times.{timestamp};
ghost use Rattle.command_model.specs.Answers.{answer_document, changed_answer, sharded_answer};
ghost use Rattle.command_model.specs.Command.{command_of, shard_collection_command, split_command};
ghost use Rattle.command_laws.specs.SampleAdmin.{at_value, by_id, named_dc, sent_to, shard_with, split_with};
ghost use Rattle.command_laws.specs.SampleCommands.{id_only, number_one, with_sequence, without_id};
ghost use Rattle.command_laws.specs.SampleReads.{only};

/// Requests to `admin` that are commands: a collection's name may have dots, and its database is what is before the first one.
pub fn admin_commands()
    ensures sharded { command_of (shard_with named_dc by_id) ≡ Ok (shard_collection_command (codes "d.c")) }
    ensures long_one { command_of (shard_with named_dc (only (codes "key") (document_value (id_only (int64_value (pos 1)))))) ≡ Ok (shard_collection_command (codes "d.c")) }
    ensures dotted { command_of (shard_with (string_value (codes "d.c.admin")) by_id) ≡ Ok (shard_collection_command (codes "d.c.admin")) }
    ensures comment { command_of (shard_with named_dc (joined by_id (only (codes "comment") number_one))) ≡ Ok (shard_collection_command (codes "d.c")) }
    ensures divided { command_of (split_with (at_value (int64_value (pos 250)))) ≡ Ok (split_command (record { namespace = codes "d.c"; middle = int64_value (pos 250) })) }
    ensures at_null { command_of (split_with (at_value null_value)) ≡ Ok (split_command (record { namespace = codes "d.c"; middle = null_value })) }
{}

/// Own fields that are refused: no string; no full name; the name of a reserved database; on another database than `admin`.
pub fn refused_full_names()
    ensures kind { command_of (shard_with number_one by_id) ≡ Err (without_evidence type_mismatch) }
    ensures kind_first { command_of (sent_to (codes "d") (codes "split") number_one no_fields) ≡ Err (without_evidence type_mismatch) }
    ensures no_dot { command_of (shard_with (string_value (codes "c")) by_id) ≡ Err (without_evidence invalid_namespace) }
    ensures no_database { command_of (shard_with (string_value (codes ".c")) by_id) ≡ Err (without_evidence invalid_namespace) }
    ensures no_collection { command_of (shard_with (string_value (codes "d.")) by_id) ≡ Err (without_evidence invalid_namespace) }
    ensures two_dots { command_of (shard_with (string_value (codes "d..c")) by_id) ≡ Err (without_evidence invalid_namespace) }
    ensures admin { command_of (shard_with (string_value (codes "admin.c")) by_id) ≡ Err (without_evidence invalid_namespace) }
    ensures config { command_of (shard_with (string_value (codes "config.c")) by_id) ≡ Err (without_evidence invalid_namespace) }
    ensures sharded_elsewhere { command_of (sent_to (codes "d") (codes "shardCollection") named_dc by_id) ≡ Err (without_evidence invalid_namespace) }
    ensures divided_elsewhere { command_of (sent_to (codes "d") (codes "split") named_dc (at_value number_one)) ≡ Err (without_evidence invalid_namespace) }
    ensures name_before_fields { command_of (shard_with (string_value (codes "c")) no_fields) ≡ Err (without_evidence invalid_namespace) }
{}

/// Shard keys that are refused: all but `{_id: 1}`.
pub fn refused_shard_keys()
    ensures absent { command_of (shard_with named_dc no_fields) ≡ Err (without_evidence failed_to_parse) }
    ensures kind { command_of (shard_with named_dc (only (codes "key") number_one)) ≡ Err (without_evidence type_mismatch) }
    ensures empty { command_of (shard_with named_dc (only (codes "key") (document_value no_fields))) ≡ Err (without_evidence bad_value) }
    ensures other { command_of (shard_with named_dc (only (codes "key") (document_value without_id))) ≡ Err (without_evidence bad_value) }
    ensures two { command_of (shard_with named_dc (only (codes "key") (document_value (joined (id_only number_one) without_id)))) ≡ Err (without_evidence bad_value) }
    ensures hashed { command_of (shard_with named_dc (only (codes "key") (document_value (id_only (string_value (codes "hashed")))))) ≡ Err (without_evidence bad_value) }
    ensures not_one { command_of (shard_with named_dc (only (codes "key") (document_value (id_only (int32_value (pos 2)))))) ≡ Err (without_evidence bad_value) }
    ensures unlisted { command_of (shard_with named_dc (joined by_id (only (codes "unique") (boolean_value true)))) ≡ Err (without_evidence failed_to_parse) }
    ensures twice { command_of (shard_with named_dc (joined by_id by_id)) ≡ Err (without_evidence failed_to_parse) }
    ensures sequence { command_of (with_sequence (field (codes "shardCollection") named_dc (joined by_id (only (codes "$db") (string_value (codes "admin"))))) (codes "key") []) ≡
        Err (without_evidence failed_to_parse) }
{}

/// Middles that are refused: all but `{_id: <a key>}`.
pub fn refused_middles()
    ensures absent { command_of (split_with no_fields) ≡ Err (without_evidence failed_to_parse) }
    ensures kind { command_of (split_with (only (codes "middle") number_one)) ≡ Err (without_evidence type_mismatch) }
    ensures empty { command_of (split_with (only (codes "middle") (document_value no_fields))) ≡ Err (without_evidence bad_value) }
    ensures other { command_of (split_with (only (codes "middle") (document_value without_id))) ≡ Err (without_evidence bad_value) }
    ensures two { command_of (split_with (only (codes "middle") (document_value (joined (id_only number_one) without_id)))) ≡ Err (without_evidence bad_value) }
    ensures least { command_of (split_with (at_value min_key_value)) ≡ Err (without_evidence bad_value) }
    ensures greatest { command_of (split_with (at_value max_key_value)) ≡ Err (without_evidence bad_value) }
    ensures array { command_of (split_with (at_value (array_value no_items))) ≡ Err (without_evidence bad_value) }
    ensures document { command_of (split_with (at_value (document_value no_fields))) ≡ Err (without_evidence bad_value) }
    ensures unlisted { command_of (split_with (joined (at_value number_one) (only (codes "find") (document_value without_id)))) ≡ Err (without_evidence failed_to_parse) }
    ensures sequence { command_of (with_sequence (field (codes "split") named_dc (joined (at_value number_one) (only (codes "$db") (string_value (codes "admin"))))) (codes "x") []) ≡
        Err (without_evidence failed_to_parse) }
{}

/// Answers, as documents.
pub fn admin_answers()
    ensures sharded { answer_document (sharded_answer (codes "d.c") (timestamp 1000 2)) ≡
        field (codes "collectionsharded") (string_value (codes "d.c"))
        (field (codes "ok") number_one
        (only (codes "operationTime") (timestamp_value (timestamp 1000 2)))) }
    ensures changed { answer_document (changed_answer 7) ≡ field (codes "ok") number_one (only (codes "operationTime") (timestamp_value 7)) }
{}
