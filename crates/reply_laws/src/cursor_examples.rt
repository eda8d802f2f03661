//! Worked values of cursors: three documents in order, by a find and what follows it. Each with replies beside it that are wrong.

ghost use Rattle.std.specs.Prelude.{◌≡◌, ◌∷◌, List, [], codes, Some, None, Ok, true, false, pos, negsuc};
ghost use Rattle.command_model.specs.KillCursors.{KillCursors};
ghost use Rattle.command_laws.specs.SampleCommands.{database_d};
ghost use Rattle.command_laws.specs.SampleRequests.{with_id};
ghost use Rattle.command_model.specs.Command.{find_command, more_command, kill_command, command_of};
ghost use Rattle.bson_model.specs.Tree.{boolean_value, field, no_fields};
ghost use Rattle.reply_model.specs.Cursors.{Cursor};
ghost use Rattle.reply_model.specs.OneHistory.{AreRight};
ghost use Rattle.reply_model.specs.Right.{IsRight};
ghost use Rattle.reply_laws.specs.SampleExchanges.{IsToldRightly, IsToldWrongly, created, account_of};
ghost use Rattle.reply_laws.specs.SampleReads.{Turns, TurnsNever, all_three, asks_more, finds_sorted, going_on, kept, killing, of_size, one, open_with, sorting, three, told_first, told_gone, told_killed, told_next, two, another_router, changed_later, first_asked, first_replies, four, single_batch, told_later};

/// What the requests are.
pub fn asked_of_cursors()
    ensures find { command_of (sorting false 2 no_fields).request ≡ Ok (find_command (finds_sorted 2 false)) }
    ensures single { command_of (sorting false 1 single_batch).request ≡ Ok (find_command (finds_sorted 1 true)) }
    ensures more { command_of (going_on false 2 3 (codes "c") no_fields).request ≡ Ok (more_command (asks_more (codes "d.c") None)) }
    ensures few { command_of (going_on false 2 3 (codes "c") (of_size 0 no_fields)).request ≡ Ok (more_command (asks_more (codes "d.c") (Some 0))) }
    ensures kill { command_of (killing false (codes "c") (pos 1 ∷ negsuc 0 ∷ [])).request
        ≡ Ok (kill_command (record { namespace = codes "d.c"; cursors = pos 1 ∷ negsuc 0 ∷ [] })) }
{}

/// Two of three documents and a cursor, then the third and 0, and then the cursor is gone.
pub fn batches()
    ensures first { Turns [] (sorting false 2 no_fields) (told_first (sorting false 2 no_fields) (pos 1) (with_id one ∷ with_id two ∷ []))
        (open_with (with_id three ∷ []) ∷ []) }
    ensures ended_early { TurnsNever [] (sorting false 2 no_fields) (told_first (sorting false 2 no_fields) (pos 0) (with_id one ∷ with_id two ∷ [])) }
    ensures too_few { TurnsNever [] (sorting false 2 no_fields) (told_first (sorting false 2 no_fields) (pos 1) (with_id one ∷ [])) }
    ensures negative { TurnsNever [] (sorting false 2 no_fields) (told_first (sorting false 2 no_fields) (negsuc 0) (with_id one ∷ with_id two ∷ [])) }
    ensures another_order { TurnsNever [] (sorting false 2 no_fields) (told_first (sorting false 2 no_fields) (pos 1) (with_id two ∷ with_id one ∷ [])) }
    ensures next { Turns (open_with (with_id three ∷ []) ∷ []) (going_on false 2 3 (codes "c") no_fields)
        (told_next (going_on false 2 3 (codes "c") no_fields) (pos 0) (with_id three ∷ [])) (open_with [] ∷ []) }
    ensures none_shown { TurnsNever (open_with (with_id three ∷ []) ∷ []) (going_on false 2 3 (codes "c") no_fields)
        (told_next (going_on false 2 3 (codes "c") no_fields) (pos 0) []) }
    ensures shown_again { TurnsNever (open_with (with_id three ∷ []) ∷ []) (going_on false 2 3 (codes "c") no_fields)
        (told_next (going_on false 2 3 (codes "c") no_fields) (pos 0) (with_id two ∷ with_id three ∷ [])) }
    ensures still_open { TurnsNever (open_with (with_id three ∷ []) ∷ []) (going_on false 2 3 (codes "c") no_fields)
        (told_next (going_on false 2 3 (codes "c") no_fields) (pos 1) (with_id three ∷ [])) }
    ensures gone { Turns (open_with [] ∷ []) (going_on false 2 4 (codes "c") no_fields) (told_gone (going_on false 2 4 (codes "c") no_fields))
        (open_with [] ∷ []) }
    ensures not_gone { TurnsNever (open_with [] ∷ []) (going_on false 2 4 (codes "c") no_fields)
        (told_next (going_on false 2 4 (codes "c") no_fields) (pos 0) []) }
    ensures all { AreRight (account_of kept first_asked first_replies) [] first_replies }
{}

/// Of size 0 a batch shows nothing, and the cursor stays open; only where there is no document there is no cursor.
pub fn empty_batches()
    ensures first { Turns [] (sorting false 0 no_fields) (told_first (sorting false 0 no_fields) (pos 1) []) (open_with all_three ∷ []) }
    ensures ended { TurnsNever [] (sorting false 0 no_fields) (told_first (sorting false 0 no_fields) (pos 0) []) }
    ensures shown { TurnsNever [] (sorting false 0 no_fields) (told_first (sorting false 0 no_fields) (pos 1) (with_id one ∷ [])) }
    ensures again { Turns (open_with all_three ∷ []) (going_on false 2 3 (codes "c") (of_size 0 no_fields))
        (told_next (going_on false 2 3 (codes "c") (of_size 0 no_fields)) (pos 1) []) (open_with all_three ∷ []) }
    ensures rest { Turns (open_with all_three ∷ []) (going_on false 2 4 (codes "c") no_fields)
        (told_next (going_on false 2 4 (codes "c") no_fields) (pos 0) all_three) (open_with [] ∷ []) }
{}

/// Of no documents there is no cursor, also where a batch shows none.
pub fn no_documents()
    ensures ended { IsToldRightly [] (sorting false 0 no_fields) (told_first (sorting false 0 no_fields) (pos 0) []) }
    ensures open { IsToldWrongly [] (sorting false 0 no_fields) (told_first (sorting false 0 no_fields) (pos 1) []) }
{}

/// Where no other batch is requested, none is kept; so it is where the request gets no reply.
pub fn single_batches()
    ensures one { Turns [] (sorting false 1 single_batch) (told_first (sorting false 1 single_batch) (pos 0) (with_id one ∷ [])) [] }
    ensures none { Turns [] (sorting false 0 single_batch) (told_first (sorting false 0 single_batch) (pos 0) []) [] }
    ensures numbered { TurnsNever [] (sorting false 1 single_batch) (told_first (sorting false 1 single_batch) (pos 1) (with_id one ∷ [])) }
    ensures gone { Turns [] (going_on false 2 3 (codes "c") no_fields) (told_gone (going_on false 2 3 (codes "c") no_fields)) [] }
    ensures silent { Turns [] (sorting true 1 no_fields) (told_first (sorting true 1 no_fields) (pos 0) (with_id one ∷ [])) [] }
    ensures silent_numbered { TurnsNever [] (sorting true 1 no_fields) (told_first (sorting true 1 no_fields) (pos 1) (with_id one ∷ [])) }
    ensures never_shown { TurnsNever [] (going_on false 2 3 (codes "c") no_fields)
        (told_next (going_on false 2 3 (codes "c") no_fields) (pos 0) (with_id two ∷ with_id three ∷ [])) }
{}

/// A batch that is not put is shown again; cursors that are closed are closed without a reply too.
pub fn silent_requests()
    ensures shown { Turns (open_with (with_id two ∷ with_id three ∷ []) ∷ []) (going_on true 2 3 (codes "c") no_fields)
        (told_next (going_on true 2 3 (codes "c") no_fields) (pos 0) (with_id two ∷ with_id three ∷ [])) (open_with (with_id two ∷ with_id three ∷ []) ∷ []) }
    ensures shown_again { Turns (open_with (with_id two ∷ with_id three ∷ []) ∷ []) (going_on false 2 4 (codes "c") no_fields)
        (told_next (going_on false 2 4 (codes "c") no_fields) (pos 0) (with_id two ∷ with_id three ∷ [])) (open_with [] ∷ []) }
    ensures not_gone { TurnsNever (open_with (with_id two ∷ with_id three ∷ []) ∷ []) (going_on false 2 4 (codes "c") no_fields)
        (told_gone (going_on false 2 4 (codes "c") no_fields)) }
    ensures closed { Turns (open_with (with_id two ∷ []) ∷ []) (killing true (codes "c") (pos 1 ∷ []))
        (told_killed (killing true (codes "c") (pos 1 ∷ [])) (pos 1 ∷ []) []) (open_with [] ∷ []) }
{}

/// Cursors are closed once, by their number and collection.
pub fn closed_cursors()
    ensures closed { Turns (open_with (with_id two ∷ []) ∷ []) (killing false (codes "c") (pos 1 ∷ pos 1 ∷ pos 2 ∷ negsuc 0 ∷ []))
        (told_killed (killing false (codes "c") (pos 1 ∷ pos 1 ∷ pos 2 ∷ negsuc 0 ∷ [])) (pos 1 ∷ []) (pos 1 ∷ pos 2 ∷ negsuc 0 ∷ [])) (open_with [] ∷ []) }
    ensures twice { TurnsNever (open_with (with_id two ∷ []) ∷ []) (killing false (codes "c") (pos 1 ∷ pos 1 ∷ []))
        (told_killed (killing false (codes "c") (pos 1 ∷ pos 1 ∷ [])) (pos 1 ∷ pos 1 ∷ []) []) }
    ensures elsewhere { Turns (open_with (with_id two ∷ []) ∷ []) (killing false (codes "b") (pos 1 ∷ []))
        (told_killed (killing false (codes "b") (pos 1 ∷ [])) [] (pos 1 ∷ [])) (open_with (with_id two ∷ []) ∷ []) }
    ensures closed_elsewhere { TurnsNever (open_with (with_id two ∷ []) ∷ []) (killing false (codes "b") (pos 1 ∷ []))
        (told_killed (killing false (codes "b") (pos 1 ∷ [])) (pos 1 ∷ []) []) }
{}

/// A cursor is found in its collection alone, at its router and in its life; another router has a cursor of the same number.
pub fn other_cursors()
    ensures namespace { Turns (open_with (with_id two ∷ []) ∷ []) (going_on false 2 3 (codes "b") no_fields)
        (told_gone (going_on false 2 3 (codes "b") no_fields)) (open_with (with_id two ∷ []) ∷ []) }
    ensures router { Turns (open_with (with_id two ∷ []) ∷ []) (going_on false 3 1 (codes "c") no_fields)
        (told_gone (going_on false 3 1 (codes "c") no_fields)) (open_with (with_id two ∷ []) ∷ []) }
    ensures life { Turns (open_with (with_id two ∷ []) ∷ []) (record (going_on false 2 1
        (codes "c") no_fields) { id = record { router = 2; life = 2; count = 1 } })
        (told_gone (record (going_on false 2 1 (codes "c") no_fields) { id = record { router = 2; life = 2; count = 1 } }))
        (open_with (with_id two ∷ []) ∷ []) }
    ensures own { Turns (open_with (with_id two ∷ []) ∷ another_router ∷ []) (going_on false 3 1 (codes "c") no_fields)
        (told_next (going_on false 3 1 (codes "c") no_fields) (pos 0) (with_id three ∷ []))
        (open_with (with_id two ∷ []) ∷ record another_router { remaining = [] } ∷ []) }
    ensures not_own { TurnsNever (open_with (with_id two ∷ []) ∷ another_router ∷ []) (going_on false 3 1 (codes "c") no_fields)
        (told_next (going_on false 3 1 (codes "c") no_fields) (pos 0) (with_id two ∷ [])) }
{}

/// A number is given once by a router, also where its cursor has ended, and in another life.
pub fn cursor_numbers()
    ensures second { Turns (open_with (with_id three ∷ []) ∷ []) (sorting false 2 no_fields)
        (told_first (sorting false 2 no_fields) (pos 2) (with_id one ∷ with_id two ∷ []))
        (open_with (with_id three ∷ []) ∷ record (open_with (with_id three ∷ [])) { number = pos 2 } ∷ []) }
    ensures again { TurnsNever (open_with (with_id three ∷ []) ∷ []) (sorting false 2 no_fields)
        (told_first (sorting false 2 no_fields) (pos 1) (with_id one ∷ with_id two ∷ [])) }
    ensures ended { TurnsNever (open_with [] ∷ []) (sorting false 2 no_fields) (told_first (sorting false 2 no_fields) (pos 1)
        (with_id one ∷ with_id two ∷ [])) }
    ensures another_life { TurnsNever (open_with [] ∷ []) (record (sorting false 2 no_fields) { id = record { router = 2; life = 2; count = 1 } })
        (told_first (record (sorting false 2 no_fields) { id = record { router = 2; life = 2; count = 1 } }) (pos 1) (with_id one ∷ with_id two ∷ [])) }
    ensures another_router { Turns (another_router ∷ []) (sorting false 2 no_fields)
        (told_first (sorting false 2 no_fields) (pos 1) (with_id one ∷ with_id two ∷ [])) (another_router ∷ open_with (with_id three ∷ []) ∷ []) }
{}

/// A cursor shows what was there at its time, whatever is written after that.
pub fn later_writes()
    ensures stays { IsRight (account_of changed_later [] []) (open_with (with_id two ∷ with_id three ∷ []) ∷ []) (going_on false 2 5 (codes "c") no_fields)
        (told_next (going_on false 2 5 (codes "c") no_fields) (pos 0) (with_id two ∷ with_id three ∷ [])) (open_with [] ∷ []) }
    ensures without_deleted { (next : List Cursor)
        → IsRight (account_of changed_later [] []) (open_with (with_id two ∷ with_id three ∷ []) ∷ []) (going_on false 2 5 (codes "c") no_fields)
        (told_next (going_on false 2 5 (codes "c") no_fields) (pos 0) (with_id two ∷ [])) next → ⊥ }
    ensures with_new { (next : List Cursor)
        → IsRight (account_of changed_later [] []) (open_with (with_id two ∷ with_id three ∷ []) ∷ []) (going_on false 2 5 (codes "c") no_fields)
        (told_next (going_on false 2 5 (codes "c") no_fields) (pos 0) (with_id two ∷ with_id four ∷ [])) next → ⊥ }
    ensures later_time { (next : List Cursor)
        → IsRight (account_of changed_later [] []) (open_with (with_id two ∷ with_id three ∷ []) ∷ []) (going_on false 2 5 (codes "c") no_fields)
        (told_later (going_on false 2 5 (codes "c") no_fields) (with_id two ∷ with_id three ∷ [])) next → ⊥ }
{}
