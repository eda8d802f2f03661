//! The definitions on requests, answers and entries that one can check by hand.

ghost use Rattle.std.specs.Prelude.{◌≡◌, ◌∷◌, ℕ, List, [], codes, map, Some, None, Ok, true, false, pos};
ghost use Rattle.base_model.specs.Errors.{duplicate_key};
ghost use Rattle.chunk_model.specs.SampleCollections.{creation};
ghost use Rattle.chunk_model.specs.Changes.{create_change};
ghost use Rattle.command_model.specs.Answers.{answer_document, legacy_answer, refusal_answer};
ghost use Rattle.command_model.specs.Command.{find_command, write_command, command_of};
ghost use Rattle.bson_model.specs.Faults.{Fault};
ghost use Rattle.base_model.specs.Refusals.{Refusal, no_document_at};
ghost use Rattle.opmsg_model.specs.Replies.{reply_bytes};
ghost use Rattle.opmsg_model.specs.Requests.{msg_form};
ghost use Rattle.base_model.specs.SampleReplies.{ahead_reply, done_reply, duplicate_reply};
ghost use Rattle.command_laws.specs.SampleRequests.{deep, faulty, five, long_five, second_fails, shown, six, three, too_large_reply, with_id};
ghost use Rattle.base_model.specs.Times.{timestamp};
ghost use Rattle.command_laws.specs.SampleCommands.{change_one};
ghost use Rattle.command_model.specs.Writes.{delete_kind, insert_kind, update_kind};
ghost use Rattle.history_model.specs.History.{Legal, delete_operation, done, fails_with, insert_operation, update_operation};
ghost use Rattle.reply_model.specs.Exchanges.{reply_put};
ghost use Rattle.reply_model.specs.Outcomes.{Done};
ghost use Rattle.reply_model.specs.OneHistory.{AreDifferent, IsFresh, IsInOrder, IsKnown, IsPlaced, IsRightOf, OneHistory, WasSent, WasWanted, ids_asked, ids_told};
ghost use Rattle.reply_model.specs.Cursors.{Cursor};
ghost use Rattle.reply_model.specs.Right.{IsPart, IsWhole, Sends};
ghost use Rattle.reply_laws.specs.SampleExchanges.{IsToldRightly, IsToldWrongly, find_of, all_asked, all_told, both_entries, changed_five, changed_reply, changing, changing_entry, deep_asked, deep_entry, deleted_reply, deleting, entry_at, finding, finding_later, first, first_entry, first_told, greeted, id_at, is_shown, is_shown_later, second, second_entry, second_told, tells, third, third_told, three_asked, three_entries, three_writes, two_entries, finding_at, is_shown_at, unmet_delete, unmet_entries, upserting, upserting_entries, upserting_reply, created, created_late, account_of, account_by, given_elsewhere};

/// What the requests are.
pub fn asked()
    ensures insert { command_of first.request
        ≡ Ok (write_command (record {
          kind = insert_kind;
          namespace = codes "d.c";
          operations = insert_operation (with_id five) ∷ [];
          ordered = true;
          number = None;
        })) }
    ensures three { command_of (three_asked true false).request
        ≡ Ok (write_command (record { kind = insert_kind; namespace = codes "d.c"; operations = map insert_operation three; ordered = false; number = None })) }
    ensures update { command_of changing.request
        ≡ Ok (write_command (record {
          kind = update_kind;
          namespace = codes "d.c";
          operations = update_operation (with_id five) change_one false ∷ [];
          ordered = true;
          number = None;
        })) }
    ensures delete { command_of deleting.request
        ≡ Ok (write_command (record {
          kind = delete_kind;
          namespace = codes "d.c";
          operations = delete_operation (with_id long_five) ∷ [];
          ordered = true;
          number = None;
        })) }
    ensures find { command_of third.request ≡ Ok (find_command (find_of long_five None)) }
{}

/// Two inserts under one key, in both widths, at two routers, and a find of the second's key at the first router: one history. It is
/// none where an entry is lost, where one was made that nobody sent, where a reply is missing from those to the requests, and where a request
/// gets two replies.
pub fn one_history()
    ensures whole { OneHistory (account_of both_entries all_asked all_told) }
    ensures lost { OneHistory (account_of [] all_asked all_told) → ⊥ }
    ensures lost_duplicate { OneHistory (account_of (first_entry ∷ []) all_asked all_told) → ⊥ }
    ensures nobody_sent { OneHistory (account_of both_entries (first ∷ third ∷ []) (first_told ∷ third_told ∷ [])) → ⊥ }
    ensures not_asked { OneHistory (account_of both_entries (first ∷ second ∷ []) all_told) → ⊥ }
    ensures twice { OneHistory (account_of both_entries all_asked (first_told ∷ all_told)) → ⊥ }
    ensures not_begun { OneHistory (account_by [] both_entries all_asked all_told) → ⊥ }
    ensures disordered { OneHistory (account_of (second_entry ∷ first_entry ∷ []) all_asked all_told) → ⊥ }
{}

/// Of three documents the second has the key of the first. The error ends the insert where it is ordered, and else the third document
/// is inserted. With moreToCome it is answered just so, and no reply is put.
pub fn many_statements()
    ensures ordered { IsToldRightly two_entries (three_asked false true) (tells (three_asked false true) 3 3 (second_fails 1 3)) }
    ensures unordered { IsToldRightly three_entries (three_asked false false) (tells (three_asked false false) 3 4 (second_fails 2 4)) }
    ensures silent { IsToldRightly two_entries (three_asked true true) (tells (three_asked true true) 3 3 (second_fails 1 3)) }
    ensures nothing_put { reply_put (pos 1) (three_asked true true).request (second_fails 1 3) ≡ [] }
    ensures put { reply_put (pos 1) (three_asked false true).request (second_fails 1 3) ≡ reply_bytes msg_form (pos 1) (pos 1) (second_fails 1 3) }
    ensures one_more { (dones : List Done) → IsWhole three_entries (id_at 2 1)
        (record { kind = insert_kind; namespace = codes "d.c"; operations = map insert_operation three; ordered = true; number = None }) dones → ⊥ }
    ensures one_less { IsToldWrongly two_entries (three_asked false false) (tells (three_asked false false) 3 3 (second_fails 1 3)) }
    ensures silent_lost { IsToldWrongly [] (three_asked true true) (tells (three_asked true true) 3 3 (second_fails 1 3)) }
{}

/// An insert of a document that is too large gets that error, and ends there where it is ordered; the document isn't found.
pub fn too_large()
    ensures told { IsToldRightly (deep_entry ∷ []) deep_asked (tells deep_asked 3 2 too_large_reply) }
    ensures goes_on { IsToldWrongly (deep_entry ∷ entry_at 3 2 1 1 six done ∷ []) deep_asked (tells deep_asked 3 3 too_large_reply) }
    ensures not_found { IsToldRightly (deep_entry ∷ []) (finding five None) (is_shown five None [] 2) }
    ensures not_shown { IsToldWrongly (deep_entry ∷ []) (finding five None) (is_shown five None (deep ∷ []) 2) }
{}

/// A handshake returns its router's last moment, and a request whose document has a fault is refused with its place.
pub fn without_documents()
    ensures greeting { IsToldRightly [] greeted (tells greeted 3 0 (answer_document (legacy_answer 1000000 false))) }
    ensures another_moment { IsToldWrongly [] greeted (tells greeted 3 0 (answer_document (legacy_answer 1000001 false))) }
    ensures refused { (fault : Fault) (place : ℕ) → IsToldRightly [] (record greeted { request = faulty fault place })
        (tells greeted 3 0 (answer_document (refusal_answer (no_document_at place)))) }
    ensures never_refused { (refusal : Refusal) → IsToldWrongly [] first (tells first 3 0 (answer_document (refusal_answer refusal))) }
{}

/// Of an insert that is under way a prefix of its entries may be stored, also none, but no entry after one that is missing, and none after
/// the error that ends it. It is not answered by then.
pub fn under_way()
    ensures nothing { IsPart [] (id_at 2 1)
        (record { kind = insert_kind; namespace = codes "d.c"; operations = map insert_operation three; ordered = true; number = None }) }
    ensures begun { IsPart (first_entry ∷ []) (id_at 2 1)
        (record { kind = insert_kind; namespace = codes "d.c"; operations = map insert_operation three; ordered = true; number = None }) }
    ensures ended { IsPart two_entries (id_at 2 1)
        (record { kind = insert_kind; namespace = codes "d.c"; operations = map insert_operation three; ordered = true; number = None }) }
    ensures first_missing { IsPart (entry_at 2 2 1 1 long_five done ∷ []) (id_at 2 1)
        (record { kind = insert_kind; namespace = codes "d.c"; operations = map insert_operation three; ordered = true; number = None }) → ⊥ }
    ensures behind_error { IsPart three_entries (id_at 2 1)
        (record { kind = insert_kind; namespace = codes "d.c"; operations = map insert_operation three; ordered = true; number = None }) → ⊥ }
    ensures answered_early { IsToldWrongly (first_entry ∷ []) (three_asked false true) (tells (three_asked false true) 3 2 done_reply) }
{}

/// After the first insert, at Timestamp(1000, 2), a find of either five shows the document, and one of six shows none. At Timestamp(1000,
/// 1) nothing is there yet, and Timestamp(1000, 3) is ahead of the router's time, which is returned.
pub fn found()
    ensures right { IsToldRightly both_entries third third_told }
    ensures wrong { IsToldWrongly both_entries third (is_shown long_five None [] 2) }
    ensures other_key { IsToldRightly both_entries (finding six None) (is_shown six None [] 2) }
    ensures right_before { IsToldRightly both_entries (finding five (Some (timestamp 1000 1))) (is_shown five (Some (timestamp 1000 1)) [] 1) }
    ensures wrong_before { IsToldWrongly both_entries (finding five (Some (timestamp 1000 1)))
        (is_shown five (Some (timestamp 1000 1)) (with_id five ∷ []) 1) }
    ensures old { IsToldWrongly both_entries third (is_shown long_five None [] 1) }
    ensures right_ahead { IsToldRightly both_entries (finding five (Some (timestamp 1000 3)))
        (tells (finding five (Some (timestamp 1000 3))) 7 2 ahead_reply) }
    ensures not_ahead { IsToldWrongly both_entries (finding five (Some (timestamp 1000 2))) (tells (finding five (Some (timestamp 1000 2))) 7 2 ahead_reply) }
    ensures another_time { IsToldWrongly both_entries (finding five (Some (timestamp 1000 3)))
        (tells (finding five (Some (timestamp 1000 3))) 7 1 ahead_reply) }
    ensures never_named { IsToldWrongly both_entries third (tells third 7 2 ahead_reply) }
{}

/// An update that changed the document that it matched, and a delete that removed one, return just that. A reply with another count, and
/// the reply to another kind of write, are wrong, and so is an entry with another count.
pub fn changed()
    ensures legal { Legal three_writes }
    ensures miscounted { Legal (first_entry ∷ record changing_entry { outcome = done } ∷ []) → ⊥ }
    ensures updated { IsToldRightly three_writes changing (tells changing 5 3 (changed_reply 1 1)) }
    ensures not_changed { IsToldWrongly three_writes changing (tells changing 5 3 (changed_reply 1 0)) }
    ensures not_met { IsToldWrongly three_writes changing (tells changing 5 3 (changed_reply 0 0)) }
    ensures another_kind { IsToldWrongly three_writes changing (tells changing 5 3 (deleted_reply 1 3)) }
    ensures deleted { IsToldRightly three_writes deleting (tells deleting 7 4 (deleted_reply 1 4)) }
    ensures not_deleted { IsToldWrongly three_writes deleting (tells deleting 7 4 (deleted_reply 0 4)) }
{}

/// Of three updates at once the first matches a document and changes nothing, the second matches none and inserts one, and the third can't change
/// the key of what it matches. Each of these is returned. A delete that matches none has an entry and returns 0.
pub fn updates_told()
    ensures right { IsToldRightly upserting_entries upserting (tells upserting 5 5 (upserting_reply 2 0 1)) }
    ensures more_changed { IsToldWrongly upserting_entries upserting (tells upserting 5 5 (upserting_reply 2 2 1)) }
    ensures more_met { IsToldWrongly upserting_entries upserting (tells upserting 5 5 (upserting_reply 3 0 1)) }
    ensures another_index { IsToldWrongly upserting_entries upserting (tells upserting 5 5 (upserting_reply 2 0 0)) }
    ensures unmet { IsToldRightly unmet_entries unmet_delete (tells unmet_delete 5 3 (deleted_reply 0 3)) }
    ensures unmet_without_entry { IsToldWrongly (first_entry ∷ []) unmet_delete (tells unmet_delete 5 3 (deleted_reply 0 3)) }
{}

/// An entry of a statement has the client's own words.
pub fn own_words()
    ensures insert { IsPart (record first_entry { operation = insert_operation (with_id six) } ∷ []) (id_at 2 1)
        (record { kind = insert_kind; namespace = codes "d.c"; operations = map insert_operation three; ordered = true; number = None }) → ⊥ }
    ensures update { IsPart (record changing_entry { operation = delete_operation (with_id five) } ∷ []) (id_at 2 2)
        (record {
          kind = update_kind;
          namespace = codes "d.c";
          operations = update_operation (with_id five) change_one false ∷ [];
          ordered = true;
          number = None;
        }) → ⊥ }
{}

/// A find that names no time is of its router's time as that took it, also where its reply comes later and its document is gone by then.
pub fn found_as_taken()
    ensures right { IsToldRightly three_writes (finding_at 3) (is_shown_at 3 5 (changed_five ∷ []) 3) }
    ensures later { IsToldWrongly three_writes (finding_at 3) (is_shown_at 3 5 [] 4) }
{}

/// A delete at Timestamp(1000, 4): before it a find shows the document as the update left it, from its time on none.
pub fn found_around_delete()
    ensures before { IsToldRightly three_writes (finding_later (Some (timestamp 1000 3))) (is_shown_later (Some (timestamp 1000 3)) (changed_five ∷ []) 3) }
    ensures at { IsToldRightly three_writes (finding_later (Some (timestamp 1000 4))) (is_shown_later (Some (timestamp 1000 4)) [] 4) }
    ensures after { IsToldRightly three_writes (finding_later None) (is_shown_later None [] 5) }
    ensures unchanged { IsToldWrongly three_writes (finding_later (Some (timestamp 1000 3))) (is_shown_later (Some (timestamp 1000 3)) (with_id five ∷ []) 3) }
    ensures gone_early { IsToldWrongly three_writes (finding_later (Some (timestamp 1000 3))) (is_shown_later (Some (timestamp 1000 3)) [] 3) }
    ensures still_there { IsToldWrongly three_writes (finding_later (Some (timestamp 1000 4)))
        (is_shown_later (Some (timestamp 1000 4)) (changed_five ∷ []) 4) }
    ensures back_again { IsToldWrongly three_writes (finding_later None) (is_shown_later None (changed_five ∷ []) 5) }
{}

/// Replies that are wrong: another request's, under another number, on another link, before the request came, to a request that was not
/// taken.
pub fn wrong_replies()
    ensures another { IsToldWrongly both_entries first (record first_told { document = duplicate_reply }) }
    ensures number { (next : List Cursor) → IsRightOf (account_of both_entries all_asked []) [] (record first_told { number = pos 2 }) next → ⊥ }
    ensures link { (next : List Cursor) → IsRightOf (account_of both_entries all_asked []) [] (record first_told { link = 1 }) next → ⊥ }
    ensures early { (next : List Cursor) → IsRightOf (account_of both_entries all_asked []) [] (record first_told { step = 1 }) next → ⊥ }
    ensures not_taken { (next : List Cursor) → IsRightOf (account_of both_entries [] []) [] first_told next → ⊥ }
{}

/// What is stale: a request that comes to a router, in the life in which it had returned a time, with a lower one, or with a lower one
/// than an earlier request. At another router, or in another life, it is not.
pub fn stale()
    ensures told { IsFresh (first_told ∷ []) (record third { time = timestamp 1000 1 }) → ⊥ }
    ensures taken { IsInOrder (third ∷ []) (record first { came = 8 }) → ⊥ }
    ensures elsewhere { IsFresh (first_told ∷ []) second }
    ensures another_life { IsFresh (first_told ∷ []) (record second { id = record { router = 2; life = 2; count = 1 } }) }
    ensures not_later { WasSent (account_of both_entries all_asked []) (entry_at 0 3 1 0 long_five done) → ⊥ }
{}

/// What a router knew: its last moment, and a time that was met. A time that nobody met, a moment that was given to another node or
/// comes later, and a time before its moment's are made up.
pub fn known()
    ensures right { IsKnown (account_of both_entries [] []) third }
    ensures made_up { IsKnown (account_of both_entries [] []) (record third { time = timestamp 1000 7 }) → ⊥ }
    ensures moment { IsKnown (account_of both_entries [] []) (record third { moment = 999000 }) → ⊥ }
    ensures another_node { IsKnown given_elsewhere third → ⊥ }
    ensures too_early { IsKnown (account_of both_entries [] []) (record third { came = 0 }) → ⊥ }
    ensures behind { IsKnown (account_of both_entries [] []) (record third { time = 0 }) → ⊥ }
{}

/// How entries, collections and requests relate to each other.
pub fn related()
    ensures own { Sends first first_entry × (Sends second first_entry → ⊥) }
    ensures placed { IsPlaced created second_entry × (IsPlaced [] second_entry → ⊥) }
    ensures misplaced { IsPlaced created (record second_entry { shard = 2 }) → ⊥ }
    ensures before_collection { IsPlaced created_late second_entry → ⊥ }
    ensures wanted { WasWanted all_asked (create_change creation) × (WasWanted (third ∷ []) (create_change creation) → ⊥) }
    ensures different { AreDifferent (ids_asked all_asked) × (AreDifferent (ids_told (first_told ∷ second_told ∷ first_told ∷ [])) → ⊥) }
    ensures legal { Legal both_entries × (Legal (second_entry ∷ first_entry ∷ []) → ⊥) }
{}
