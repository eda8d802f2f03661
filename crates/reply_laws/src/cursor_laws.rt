//! The laws of cursors.

ghost use Rattle.std.specs.Prelude.{◌≡◌, ◌≢◌, ◌⊎◌, ◌∷◌, ◌++◌, ℕ, pos, List, [], Ok, true};
ghost use Rattle.bson_model.specs.Tree.{Fields};
ghost use Rattle.base_model.specs.Errors.{cursor_not_found};
ghost use Rattle.base_model.specs.Refusals.{Refusal, cursor_evidence};
ghost use Rattle.command_model.specs.Find.{Find};
ghost use Rattle.command_model.specs.Cursors.{Batch};
ghost use Rattle.command_model.specs.GetMore.{GetMore};
ghost use Rattle.command_model.specs.Answers.{answer_document, next_answer, refusal_answer};
ghost use Rattle.command_model.specs.Command.{find_command, more_command, command_of};
ghost use Rattle.pipeline_model.specs.Runs.{listed};
ghost use Rattle.reply_model.specs.Exchanges.{Asked, Answered};
ghost use Rattle.reply_model.specs.Accounts.{Account};
ghost use Rattle.reply_model.specs.Reads.{MayGive};
ghost use Rattle.reply_model.specs.Cursors.{Cursor};
ghost use Rattle.reply_laws.specs.CursorReplies.{AsksMore, EndsCursor, OpensCursor, Shows};
ghost use Rattle.reply_model.specs.Right.{IsRight};
ghost use Rattle.reply_model.specs.OneHistory.{OneHistory};

/// The batches of a cursor, joined, are a prefix of one list that the read may return at its time. The next is of that time too, and has the
/// number again, but 0 where it is the last.
pub fn batches_join()
    ensures prefix { (account : Account) (before later back : List Answered)
        (s : Answered) (find : Find) (first : Batch) (shown : List Fields) → OneHistory account → account.answered ≡ before ++ s ∷ (later ++ back)
        → OpensCursor s find first → Shows s first later shown
        → (rest : List Fields) × (rest ≢ []) × MayGive account.history find.reading first.time (listed (first.documents ++ (shown ++ rest))) }
    ensures next { (account : Account) (before later back : List Answered)
        (s t : Answered) (find : Find) (first : Batch) (shown : List Fields) → OneHistory account → account.answered ≡ before ++ s ∷ (later ++ t ∷ back)
        → OpensCursor s find first → Shows s first later shown → AsksMore s first t
        → (next : Batch) × (rest : List Fields) × (t.document ≡ answer_document (next_answer next)) × (next.namespace ≡ first.namespace)
        × (next.time ≡ first.time) × MayGive account.history find.reading first.time (listed (first.documents ++ (shown ++ (next.documents ++ rest))))
        × (((rest ≡ []) × (next.cursor ≡ pos 0)) ⊎ ((rest ≢ []) × (next.cursor ≡ first.cursor))) }
{}

/// A cursor that has ended is not found again.
pub fn ended_cursors_are_gone()
    ensures { (account : Account) (before later middle back : List Answered)
        (s u t : Answered) (find : Find) (first : Batch) (shown : List Fields)
        → OneHistory account → account.answered ≡ before ++ s ∷ (later ++ u ∷ (middle ++ t ∷ back))
        → OpensCursor s find first → Shows s first later shown → EndsCursor s first u → AsksMore s first t
        → t.document ≡ answer_document (refusal_answer (record { error = cursor_not_found; evidence = cursor_evidence first.cursor })) }
{}

/// A router gives no two cursors one number, in whichever of its lives.
pub fn numbers_are_apart()
    ensures { (account : Account) (before later back : List Answered)
        (s t : Answered) (find other : Find) (first second : Batch) → OneHistory account → account.answered ≡ before ++ s ∷ (later ++ t ∷ back)
        → OpensCursor s find first → OpensCursor t other second → t.id.router ≡ s.id.router → second.cursor ≢ first.cursor }
{}

/// A read that gets no reply leaves the cursors as they were.
pub fn silent_reads_leave()
    ensures find { (account : Account) (cursors next : List Cursor)
        (a : Asked) (t : Answered) (find : Find) → IsRight account cursors a t next
        → command_of a.request ≡ Ok (find_command find) → a.request.more ≡ true → next ≡ cursors }
    ensures more { (account : Account) (cursors next : List Cursor)
        (a : Asked) (t : Answered) (more : GetMore) → IsRight account cursors a t next
        → command_of a.request ≡ Ok (more_command more) → a.request.more ≡ true → next ≡ cursors }
{}
