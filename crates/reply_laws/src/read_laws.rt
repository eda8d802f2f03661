//! The laws of replies to reads.

ghost use Rattle.std.specs.Prelude.{◌≡◌, ◌⊎◌, codes, ◌<◌, ◌≤◌, ◌∷◌, ◌++◌, ℕ, List, [], Some, None, Ok, true, false};
ghost use Rattle.std.specs.List.{AllByRecursion};
ghost use Rattle.std.specs.Option.{unwrap_or};
ghost use Rattle.bson_model.specs.Tree.{Datum, Fields};
ghost use Rattle.base_model.specs.Refusals.{time_ahead};
ghost use Rattle.base_model.specs.ReplyParts.{operation_time};
ghost use Rattle.command_model.specs.Writes.{WriteCommand};
ghost use Rattle.command_model.specs.Reading.{Reading};
ghost use Rattle.command_model.specs.Find.{Find};
ghost use Rattle.command_model.specs.Cursors.{Batch};
ghost use Rattle.command_model.specs.Answers.{answer_document, count_answer, first_answer, refusal_answer};
ghost use Rattle.command_model.specs.Command.{count_command, find_command, command_of, write_command};
ghost use Rattle.pipeline_model.specs.Batches.{IsBatch};
ghost use Rattle.pipeline_model.specs.Runs.{Outcome, Runs, count_documents, listed};
ghost use Rattle.pipeline_model.specs.Split.{span_of_stages};
ghost use Rattle.value_model.specs.Keys.{point_span};
ghost use Rattle.history_model.specs.History.{Entry, IsIn, document_left, effect, writes_to, Outcome as WriteOutcome};
ghost use Rattle.reply_model.specs.Exchanges.{Asked, Answered, number_for};
ghost use Rattle.reply_model.specs.Accounts.{Account};
ghost use Rattle.reply_model.specs.Outcomes.{Done, answer_of, was_done};
ghost use Rattle.reply_model.specs.Reads.{GivesUpNothing, IsTimeRead, MayGive};
ghost use Rattle.reply_model.specs.Right.{Reads, usual_size};
ghost use Rattle.reply_laws.specs.UnfinishedReads.{IsUnfinished};
ghost use Rattle.reply_facts.specs.Earlier.{IsTold, WasToldBefore, found, touches};
ghost use Rattle.reply_model.specs.OneHistory.{OneHistory};

/// A find or an aggregate returns a first batch, of no more documents than its size, of a list that it may return at a time that it may be
/// of; or why it has none.
pub fn finds_are_answered()
    ensures { (account : Account) (a : Asked)
        (t : Answered) (find : Find) → OneHistory account → IsTold account.asked account.answered a t
        → command_of a.request ≡ Ok (find_command find)
        → ((documents : List Fields) × (batch : Batch) × IsTimeRead a t find.reading batch.time
        × MayGive account.history find.reading batch.time (listed documents)
        × IsBatch (Some (unwrap_or find.batches.size usual_size)) documents batch.documents × (batch.namespace ≡ find.reading.namespace)
        × (t.document ≡ answer_document (first_answer batch)))
        ⊎ IsUnfinished account a t find.reading }
{}

/// A count returns the number of the documents at a time that it may be of; or why there is none.
pub fn counts_are_answered()
    ensures { (account : Account) (a : Asked)
        (t : Answered) (reading : Reading) → OneHistory account → IsTold account.asked account.answered a t
        → command_of a.request ≡ Ok (count_command reading)
        → ((time n : ℕ) × IsTimeRead a t reading time × MayGive account.history reading time (listed (count_documents (codes "n") n))
        × (t.document ≡ answer_document (count_answer n time)))
        ⊎ IsUnfinished account a t reading }
{}

/// A read that names no time is of none before those that its router had returned, in that life, before its request came; nor before the
/// time that it is to reach. Nor is the greatest time that is returned to a read whose time is ahead.
pub fn reads_are_fresh()
    ensures now { (account : Account) (a : Asked)
        (s t : Answered) (reading : Reading) (before now : ℕ) → OneHistory account → IsTold account.asked account.answered a t
        → WasToldBefore account.answered a s → Reads (command_of a.request) reading → reading.at ≡ None → operation_time (Some s.document) ≡ Some before
        → operation_time (Some t.document) ≡ Some now → before ≤ now }
    ensures reached { (account : Account) (a : Asked)
        (t : Answered) (reading : Reading) (after now : ℕ) → OneHistory account → IsTold account.asked account.answered a t
        → Reads (command_of a.request) reading → reading.at ≡ None → reading.after ≡ Some after
        → operation_time (Some t.document) ≡ Some now → after ≤ now }
    ensures greatest { (account : Account) (a : Asked)
        (s t : Answered) (before greatest : ℕ) → OneHistory account → IsTold account.asked account.answered a t → WasToldBefore account.answered a s
        → operation_time (Some s.document) ≡ Some before → t.document ≡ answer_document (refusal_answer (time_ahead greatest)) → before ≤ greatest }
{}

/// What a read that targets one key returns is what its stages make of what the last entry under the key left, of those that are not later than
/// the time.
pub fn reads_miss_nothing()
    ensures last { (account : Account) (earlier later : List Entry)
        (e : Entry) (reading : Reading) (key : Datum) (time : ℕ) (out : Outcome) → OneHistory account → account.history ≡ earlier ++ e ∷ later
        → span_of_stages reading.stages ≡ point_span key ∷ [] → MayGive account.history reading time out
        → e.time ≤ time → writes_to reading.namespace (Some key) e ≡ true
        → AllByRecursion (λ (d : Entry). d.time ≤ time → writes_to reading.namespace (Some key) d ≡ false) later
        → Runs reading.stages (found (effect e.operation (document_left reading.namespace (Some key) earlier)).0) out }
    ensures none { (account : Account)
        (reading : Reading) (key : Datum) (time : ℕ) (out : Outcome) → OneHistory account
        → span_of_stages reading.stages ≡ point_span key ∷ [] → MayGive account.history reading time out
        → AllByRecursion (λ (d : Entry). d.time ≤ time → writes_to reading.namespace (Some key) d ≡ false) account.history → Runs reading.stages [] out }
{}

/// A read that names no time, and whose request came after its router, in that life, had answered a write, reads a time that is not
/// before that of any statement of it that was done.
pub fn reads_reach_writes()
    ensures { (account : Account) (a : Asked)
        (s t : Answered) (write : WriteCommand) (dones : List Done) (d : Done) (before time : ℕ) (outcome : WriteOutcome) (reading : Reading)
        → OneHistory account → IsTold account.asked account.answered a t → WasToldBefore account.answered a s
        → s.document ≡ answer_document (answer_of write.kind s.time dones) → IsIn d dones → d.answer ≡ was_done before outcome
        → Reads (command_of a.request) reading → reading.at ≡ None → operation_time (Some t.document) ≡ Some time → before ≤ time }
{}

/// What a read returns at a time it may return at an earlier one too, where no entry between the two wrote what may be in its span.
pub fn reads_stay()
    ensures { (account : Account)
        (reading : Reading) (before time : ℕ) (out : Outcome) → OneHistory account
        → MayGive account.history reading time out → before ≤ time
        → AllByRecursion (λ (d : Entry). before < d.time → d.time ≤ time → touches reading d ≡ false) account.history
        → MayGive account.history reading before out }
{}

/// A time that any router returned to a write with an entry of its own, of which it gave no statement up, before a request came, is not ahead of what the
/// request reads.
pub fn told_times_are_never_ahead()
    ensures { (account : Account) (a : Asked)
        (s t : Answered) (write : WriteCommand) (index : ℕ) (e : Entry) (reading : Reading) (greatest : ℕ)
        → OneHistory account → IsTold account.asked account.answered a t
        → IsIn s account.answered → s.step < a.came → command_of s.request ≡ Ok (write_command write) → IsIn e account.history
        → e.number ≡ number_for write.number s.id index
        → operation_time (Some s.document) ≡ Some e.time → GivesUpNothing s write → Reads (command_of a.request) reading
        → (reading.at ≡ Some e.time) ⊎ ((reading.at ≡ None) × (reading.after ≡ Some e.time))
        → t.document ≡ answer_document (refusal_answer (time_ahead greatest)) → ⊥ }
{}
