//! The laws between the definitions.

ghost use Rattle.std.specs.Prelude.{◌≡◌, ◌≢◌, ◌⊎◌, ◌<◌, ◌≤◌, ◌∷◌, ◌++◌, ℕ, List, None, Some, Ok, true, false, length};
ghost use Rattle.std.specs.List.{AllByRecursion};
ghost use Rattle.base_model.specs.Refusals.{Refusal};
ghost use Rattle.base_model.specs.ReplyParts.{operation_time};
ghost use Rattle.command_model.specs.Writes.{ClientNumber, WriteCommand};
ghost use Rattle.command_model.specs.Answers.{answer_document};
ghost use Rattle.command_model.specs.Command.{write_command, command_of};
ghost use Rattle.history_model.specs.History.{Entry, IsIn, Operation, Outcome};
ghost use Rattle.reply_model.specs.Exchanges.{Asked, Answered, number_for};
ghost use Rattle.reply_model.specs.Accounts.{Account};
ghost use Rattle.reply_model.specs.Outcomes.{AnyDone, Done, WasDone, answer_of, was_done};
ghost use Rattle.reply_model.specs.Right.{AreTold, IsStatement, IsWhole, Sends, told_by};
ghost use Rattle.reply_facts.specs.Earlier.{IsTold, WasTakenBefore, WasToldBefore};
ghost use Rattle.reply_model.specs.OneHistory.{OneHistory};
ghost use Rattle.reply_laws.specs.UnfinishedReads.{WasGivenUp};

/// The reply to a write has the outcomes that its statements may have, one by one. Where its client gave no number it is whole in the history; where all
/// statements that it shows were applied, the reply to an ordered write is that of all its entries; and each statement of another one has an entry, or was
/// given up.
pub fn told_writes_stand()
    ensures statements { (account : Account) (t : Answered)
        (write : WriteCommand) → OneHistory account → IsIn t account.answered → command_of t.request ≡ Ok (write_command write)
        → (a : Asked) × IsTold account.asked account.answered a t × (dones : List Done) × AreTold account a t write 0 write.operations dones
        × (t.document ≡ answer_document (answer_of write.kind t.time dones)) }
    ensures whole { (account : Account) (t : Answered)
        (write : WriteCommand) → OneHistory account → IsIn t account.answered → command_of t.request ≡ Ok (write_command write) → write.number ≡ None
        → (a : Asked) × (dones : List Done) × AreTold account a t write 0 write.operations dones × IsWhole account.history t.id write dones
        × (t.document ≡ answer_document (answer_of write.kind t.time dones)) }
    ensures told { (account : Account) (t : Answered)
        (write : WriteCommand) → OneHistory account → IsIn t account.answered → command_of t.request ≡ Ok (write_command write)
        → write.number ≡ None → write.ordered ≡ true
        → (a : Asked) × (dones : List Done) × AreTold account a t write 0 write.operations dones
        × (t.document ≡ answer_document (answer_of write.kind t.time dones))
        × (AllByRecursion (λ (d : Done). WasDone d.answer) dones → dones ≡ told_by t.id account.history) }
    ensures each { (account : Account) (t : Answered)
        (write : WriteCommand) → OneHistory account → IsIn t account.answered → command_of t.request ≡ Ok (write_command write)
        → write.number ≡ None → write.ordered ≡ false → (before : List Operation) (operation : Operation) (back : List Operation)
        → write.operations ≡ before ++ operation ∷ back
        → ((e : Entry) × IsIn e account.history × IsStatement (number_for None t.id (length before)) write.namespace operation e)
        ⊎ ((a : Asked) × (refusal : Refusal) × IsTold account.asked account.answered a t × WasGivenUp account a t write.namespace refusal) }
{}

/// An entry is that of a statement of a request that was taken; where the router gave the number, of one request alone: of one router, in one
/// of its lives, with one number.
pub fn own_entry()
    ensures sent { (account : Account) (e : Entry)
        → OneHistory account → IsIn e account.history → (a : Asked) × IsIn a account.asked × Sends a e }
    ensures alone { (a b : Asked) (e : Entry) (sends : Sends a e) → sends.write.number ≡ None → Sends b e → a.id ≡ b.id }
{}

/// A number has one entry at most.
pub fn one_entry()
    ensures { (account : Account) (d e : Entry)
        → OneHistory account → IsIn d account.history → IsIn e account.history → d.number ≡ e.number → d ≡ e }
{}

/// A retry of a statement under its client's number that is answered by what was done returns the original outcome.
pub fn retries_are_told_the_same()
    ensures { (account : Account) (a b : Asked) (s t : Answered)
        (write again : WriteCommand) (by : ClientNumber) (first second : List Done) (d e : Done) (before now : ℕ) (outcome other : Outcome)
        → OneHistory account → AreTold account a s write 0 write.operations first
        → AreTold account b t again 0 again.operations second → write.number ≡ Some by → again.number ≡ Some by → IsIn d first → IsIn e second
        → d.index ≡ e.index → d.answer ≡ was_done before outcome → e.answer ≡ was_done now other → (before ≡ now) × (outcome ≡ other) }
{}

/// A request has one answer, and a number is of one request.
pub fn one_answer()
    ensures once { (account : Account) (prefix middle back : List Answered)
        (s t : Answered) → OneHistory account → account.answered ≡ prefix ++ s ∷ (middle ++ t ∷ back) → s.id ≢ t.id }
    ensures number { (account : Account) (a b : Asked)
        → OneHistory account → IsIn a account.asked → IsIn b account.asked → a.id ≡ b.id → a ≡ b }
{}

/// An entry was made for a request: it is later than each time that the request's router had returned before, and than the time of each request
/// that it had taken before, in that life.
pub fn writes_come_later()
    ensures { (account : Account) (e : Entry)
        → OneHistory account → IsIn e account.history
        → (a : Asked) × IsIn a account.asked × Sends a e
        × ((t : Answered) (time : ℕ) → WasToldBefore account.answered a t → operation_time (Some t.document) ≡ Some time → time < e.time)
        × ((b : Asked) → WasTakenBefore account.asked a b → b.time < e.time) }
{}

/// A write whose client gave no number, and whose request came after its router had returned a time, in that life, returns none that is earlier; and a later
/// one where a statement was applied.
pub fn later_writes_tell_later()
    ensures not_earlier { (account : Account) (a : Asked)
        (s t : Answered) (write : WriteCommand) (before now : ℕ) → OneHistory account → IsTold account.asked account.answered a t
        → WasToldBefore account.answered a s → command_of a.request ≡ Ok (write_command write) → write.number ≡ None
        → operation_time (Some s.document) ≡ Some before → operation_time (Some t.document) ≡ Some now → before ≤ now }
    ensures later { (account : Account) (a : Asked)
        (s t : Answered) (write : WriteCommand) (dones : List Done) (before now : ℕ) → OneHistory account → IsTold account.asked account.answered a t
        → WasToldBefore account.answered a s → write.number ≡ None → AreTold account a t write 0 write.operations dones
        → t.document ≡ answer_document (answer_of write.kind t.time dones) → AnyDone dones
        → operation_time (Some s.document) ≡ Some before → operation_time (Some t.document) ≡ Some now → before < now }
{}
