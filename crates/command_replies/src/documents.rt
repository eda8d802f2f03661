//! The documents of answers (MongoDB manual, "Command Response").

ghost use Rattle.std.specs.Prelude.{◌≡◌, IfOk};
ghost use Rattle.command_model.specs.Answers.{answer_document};
ghost use Rattle.command_replies.specs.AnswerMeanings.{answer_view};

use crate::admin::{changed_document, sharded_document};
use crate::answer::Answer;
use crate::batches::batch_document;
use crate::counts::count_document;
use crate::handshake::done_answer;
use crate::hello::hello_answer;
use crate::is_master::legacy_answer;
use crate::kill_cursors::killed_document;
use crate::refusal::refusal_document;
use crate::writes::write_document;
use bson_values::{Document, Memory};
use std::alloc::Global;

/// Returns the document of an answer (MongoDB manual, "Command Response"). Returns `Memory` if memory runs out, and for a `Count` of 2^63 or more, which no
/// number of documents in memory reaches.
pub fn write_answer(alloc: Global, answer: &Answer) -> Result<Document, Memory>
    ensures { IfOk result (λ d. d ≡ answer_document (answer_view answer.now)) }
{
    match answer {
        Answer::Hello { moment } => hello_answer(alloc, *moment),
        Answer::Legacy { moment, hello_ok } => legacy_answer(alloc, *moment, *hello_ok),
        Answer::Done => done_answer(alloc),
        Answer::Write {
            kind,
            count,
            modified,
            upserted,
            errors,
            time,
        } => write_document(alloc, *kind, *count, *modified, upserted, errors, *time),
        Answer::First(batch) => batch_document(alloc, "firstBatch", batch),
        Answer::Next(batch) => batch_document(alloc, "nextBatch", batch),
        Answer::Count { count, time } => count_document(alloc, *count, *time),
        Answer::Killed { killed, missing } => killed_document(alloc, killed, missing),
        Answer::Sharded { namespace, time } => sharded_document(alloc, namespace, *time),
        Answer::Changed { time } => changed_document(alloc, *time),
        Answer::Refused(refusal) => refusal_document(alloc, refusal),
    }
}
