//! The definitions on requests with clients' numbers that one can check by hand.

ghost use Rattle.std.specs.Prelude.{◌≡◌, ◌∷◌, List, [], codes, true, false, pos, negsuc, Ok};
ghost use Rattle.bson_model.specs.Tree.{Fields};
ghost use Rattle.command_model.specs.Command.{command_of, write_command};
ghost use Rattle.base_model.specs.Errors.{duplicate_key};
ghost use Rattle.opmsg_model.specs.Replies.{reply_bytes};
ghost use Rattle.opmsg_model.specs.Requests.{msg_form};
ghost use Rattle.command_laws.specs.SampleCommands.{with_sequence};
ghost use Rattle.command_laws.specs.SampleNumbers.{sevens};
ghost use Rattle.base_model.specs.SampleReplies.{done_reply, duplicate_reply};
ghost use Rattle.command_laws.specs.SampleRequests.{five, long_five, second_fails, six, three, with_id};
ghost use Rattle.base_model.specs.Times.{timestamp};
ghost use Rattle.history_model.specs.History.{done, fails_with, insert_operation};
ghost use Rattle.reply_model.specs.Cursors.{Cursor};
ghost use Rattle.reply_model.specs.Exchanges.{reply_put};
ghost use Rattle.reply_model.specs.Right.{IsRight, Sends};
ghost use Rattle.reply_model.specs.OneHistory.{AreNumbered, IsReached, IsRightOf, OneHistory, WasSent};
ghost use Rattle.reply_laws.specs.SampleExchanges.{entry_at, first_entry, tells, created, account_of};
ghost use Rattle.reply_laws.specs.SampleRetries.{IsToldJust, IsToldThen, IsUntold, both_answers, both_done, both_sent, delete_three, eights, ended, entry_under, errors_reply, failed, failing, failing_again, failing_sent, finding_two, first_answer, first_three, five_elsewhere, insert_elsewhere, insert_five, insert_six, inserted_five, inserts_under, late_two, newer, newer_entry, number_in, older_error, put_five, second_done, sent_again, sent_first, sent_two, six_as, then_three, three_done, three_sent, three_without, told_ahead, two_sent, unmodified_reply, unnumbered_six, unordered_later, until_removed, upsert_three, upserted_five, zero_sent};

/// An insert that is sent again, at another router: it is done once, and returns the same, also where the router knows of a later time. No
/// reply is right where its entry is lost, or later than what the router knows; it has no second entry; and an entry under a router's own number is not of it.
pub fn retried()
    ensures whole { OneHistory (account_of (put_five ∷ []) both_sent both_answers) }
    ensures same { IsToldJust (put_five ∷ []) both_sent sent_again 5 4 done_reply }
    ensures lost { IsUntold [] both_sent sent_again 5 2 }
    ensures foretold { IsUntold (put_five ∷ []) both_sent sent_again 5 1 }
    ensures done_twice { AreNumbered (put_five ∷ entry_under sevens 3 (pos 4) 0 (insert_operation (with_id five)) (fails_with duplicate_key) ∷ []) → ⊥ }
    ensures own_number { Sends sent_again (entry_at 3 3 1 0 five (fails_with duplicate_key)) → ⊥ }
{}

/// One that failed fails the same when it is sent again, though its document could be inserted by then.
pub fn retried_error()
    ensures same { IsToldJust until_removed failing_sent failing_again 9 5 duplicate_reply }
    ensures done_twice { AreNumbered (failed ∷ entry_under sevens 5 (pos 4) 0 (insert_operation (with_id long_five)) done ∷ []) → ⊥ }
{}

/// A number that is used again for another statement returns the outcome of the first one, in the form of the command that is sent: what an upsert inserted is
/// returned to updates alone. Without a number, by another number, and before the first one is sent, it is not returned.
pub fn numbers_used_again()
    ensures insert { IsToldThen upserted_five (upsert_three five) insert_six done_reply }
    ensures delete { IsToldThen upserted_five (upsert_three five) (delete_three six) done_reply }
    ensures update { IsToldThen inserted_five insert_five (upsert_three six) unmodified_reply }
    ensures elsewhere { IsToldThen five_elsewhere insert_elsewhere (delete_three six) done_reply }
    ensures foretold { IsUntold (upserted_five ∷ []) (record (first_three (upsert_three five)) { came = 8 } ∷ then_three insert_six ∷ [])
        (then_three insert_six) 5 4 }
    ensures own_entry { AreNumbered (upserted_five ∷ entry_under sevens 3 (pos 3) 0 (insert_operation (with_id six)) done ∷ []) → ⊥ }
    ensures unnumbered { IsUntold (upserted_five ∷ []) (first_three (upsert_three five) ∷ unnumbered_six ∷ []) unnumbered_six 5 4 }
    ensures another_index { IsUntold (entry_under sevens 2 (pos 4) 1 (insert_operation (with_id six)) done ∷ []) both_sent sent_again 5 4 }
    ensures smaller_transaction { IsUntold (entry_under sevens 2 (pos 3) 0 (insert_operation (with_id five)) done ∷ []) both_sent sent_again 5 4 }
    ensures another_session { IsUntold (entry_under eights 2 (pos 4) 0 (insert_operation (with_id five)) done ∷ []) both_sent sent_again 5 4 }
{}

/// Where the session has a greater transaction, that is returned, at the router's time: for the first statement of an ordered command, for each of
/// another. It is not returned because of another session's, nor of an entry whose request came later, nor to a request without a number; nor is a time
/// returned that nobody met. And no entry has a smaller transaction than an earlier one.
pub fn older_transactions()
    ensures ordered { IsToldJust (newer_entry ∷ []) (newer ∷ late_two true ∷ []) (late_two true) 5 4 (errors_reply 0 4 (older_error (pos 5) 0 ∷ [])) }
    ensures unordered { IsToldJust (newer_entry ∷ []) (newer ∷ late_two false ∷ []) (late_two false) 5 4
        (errors_reply 0 4 (older_error (pos 5) 0 ∷ older_error (pos 5) 1 ∷ [])) }
    ensures below_zero { IsToldJust (entry_under sevens 2 (pos 0) 0 (insert_operation (with_id five)) done ∷ []) (zero_sent ∷ six_as (negsuc 0) ∷ [])
        (six_as (negsuc 0)) 5 4 (errors_reply 0 4 (older_error (pos 0) 0 ∷ [])) }
    ensures another_session { IsUntold (record newer_entry { number = number_in eights (pos 5) 0 } ∷ []) (newer ∷ late_two true ∷ []) (late_two true) 5 4 }
    ensures unnumbered { IsUntold (newer_entry ∷ []) (newer ∷ unnumbered_six ∷ []) unnumbered_six 5 4 }
    ensures foretold { IsUntold (newer_entry ∷ []) (record newer { came = 8 } ∷ late_two true ∷ []) (late_two true) 5 4 }
    ensures made_up { (document : Fields) (next : List Cursor) → IsRightOf (account_of (newer_entry ∷ []) (newer ∷ late_two true ∷ []) []) []
        (record (tells (late_two true) 5 4 document) { time = timestamp 2000 0 }) next → ⊥ }
    ensures behind { AreNumbered (newer_entry ∷ entry_under sevens 3 (pos 4) 0 (insert_operation (with_id six)) done ∷ []) → ⊥ }
    ensures behind_zero { AreNumbered (entry_under sevens 2 (pos 0) 0 (insert_operation (with_id five)) done
        ∷ entry_under sevens 3 (negsuc 0) 0 (insert_operation (with_id six)) done ∷ []) → ⊥ }
{}

/// A longer command under the same number does what is new in it, and another session has transactions of its own.
pub fn new_statements()
    ensures longer { AreNumbered (put_five ∷ second_done 3 ∷ [])
        × IsReached (account_of (put_five ∷ second_done 3 ∷ []) (sent_first ∷ two_sent 3 1 4 true ∷ []) []) (second_done 3) }
    ensures another_session { AreNumbered (newer_entry ∷ entry_under eights 3 (pos 4) 0 (insert_operation (with_id six)) done ∷ []) }
{}

/// Where all requests that sent a statement are ordered, it is done after those before it, none of which failed: not after an error that is
/// returned again, nor after one of another command under the number, nor with a gap. A request that is not ordered may do it, and the other gets the error.
pub fn reached_statements()
    ensures behind_error { IsReached (account_of both_done (two_sent 2 2 4 true ∷ two_sent 3 1 6 true ∷ []) []) (second_done 4) → ⊥ }
    ensures behind_another { IsReached (account_of both_done (failing ∷ two_sent 3 1 6 true ∷ []) []) (second_done 4) → ⊥ }
    ensures gap { IsReached (account_of (second_done 4 ∷ []) (two_sent 2 2 4 true ∷ []) []) (second_done 4) → ⊥ }
    ensures unordered { IsReached (account_of both_done (two_sent 2 2 4 true ∷ two_sent 3 1 6 false ∷ []) []) (second_done 4) }
    ensures ended { IsToldJust both_done (two_sent 2 2 4 true ∷ two_sent 3 1 6 false ∷ []) (two_sent 2 2 4 true) 9 5 duplicate_reply }
{}

/// Of two statements without order the first may return what was done, and the second that it is too old; the time is that of the first.
pub fn answered_together()
    ensures { IsRight (account_of (put_five ∷ entry_under sevens 3 (pos 5) 0 (insert_operation (with_id six)) done ∷ []) (sent_two ∷ six_as (pos 5) ∷ [])
        []) [] sent_two (tells sent_two 7 4 (errors_reply 1 2 (older_error (pos 5) 1 ∷ []))) [] }
{}

/// A time that any router returned to a write with a number is not ahead; and an entry is not earlier than what its maker's router had returned, though
/// another request, that had ended by then, had sent its statement before.
pub fn told_before()
    ensures ahead { (next : List Cursor)
        → IsRight (account_of (put_five ∷ []) (sent_first ∷ finding_two ∷ []) (first_answer ∷ [])) [] finding_two told_ahead next → ⊥ }
    ensures ended { WasSent (account_of (first_entry ∷ failed ∷ second_done 50 ∷ []) (two_sent 2 2 4 true ∷ unordered_later ∷ []) (ended ∷ []))
        (second_done 50) → ⊥ }
{}

/// Three statements that are sent twice, as a field or as a sequence: they are done once, and the two replies are alike but for the number of
/// the message that they answer.
pub fn sent_twice()
    ensures first { IsToldJust three_done (three_sent 1 2 ∷ three_sent 2 4 ∷ []) (three_sent 1 2) 3 4 (second_fails 2 4) }
    ensures second { IsToldJust three_done (three_sent 1 2 ∷ three_sent 2 4 ∷ []) (three_sent 2 4) 5 4 (second_fails 2 4) }
    ensures replies { (reply_put (pos 7) (three_sent 1 2).request (second_fails 2 4) ≡ reply_bytes msg_form (pos 1) (pos 7) (second_fails 2 4))
        × (reply_put (pos 7) (three_sent 2 4).request (second_fails 2 4) ≡ reply_bytes msg_form (pos 2) (pos 7) (second_fails 2 4)) }
    ensures field { command_of (three_sent 1 2).request ≡ Ok (write_command (inserts_under (pos 4) three false)) }
    ensures sequence { command_of (with_sequence three_without (codes "documents") three) ≡ Ok (write_command (inserts_under (pos 4) three false)) }
{}
