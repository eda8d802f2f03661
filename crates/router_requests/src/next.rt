//! What becomes of an open request.

ghost use Rattle.std.specs.Prelude.{◌≡◌, ℕ, []};
ghost use Rattle.command_replies.specs.Refusals.{refusal_view};
ghost use Rattle.command_model.specs.Answers.{refusal_answer};
ghost use Rattle.node_model.specs.RouterNext as nexts;
ghost use Rattle.node_model.specs.States as states;
ghost use Rattle.router_requests.specs.Fates.{answers_in, course_in, tried_by};
ghost use Rattle.router_requests.specs.Nexts.{next_view, read_next, write_next};
ghost use Rattle.write_runs.specs.Runs.{answers_view, course_view, tries_view};

use crate::fates::Stay;
use crate::read::Telling;
use crate::reads::Sends;
use crate::writes::{WriteNext, WriteSends};
use cluster_base::Time;
use command_replies::{Answer, Refusal};
use protocol_model::{Message, StatementOutcome, Try};
use std::alloc::Global;
use write_runs::Course;

/// What becomes of an open request.
#[derive(Drop)]
pub enum Next {
    /// It stays open like this, and these messages are sent.
    Stays(Stay, Vec<Message>),
    /// It is answered.
    IsTold(Answer),
    /// It is answered that nothing is there, at this time.
    IsEmpty(Time, Telling),
    /// It is answered that its collection is sharded.
    IsSharded,
}

/// Returns that a request stays as it is, and nothing is sent.
pub(crate) fn same(alloc: Global) -> Next
    ensures { (r : states.Router) (time : ℕ) (q : states.Open) → next_view r time q result ≡ nexts.stays q [] }
{
    Next::Stays(Stay::Same, Vec::new(alloc))
}

/// Returns that a request is refused.
pub(crate) fn of_refusal(refusal: Refusal) -> Next
    ensures { (r : states.Router) (time : ℕ) (q : states.Open) →
        next_view r time q result ≡ nexts.is_told (nexts.reply_to r time q (refusal_answer (refusal_view refusal))) }
{
    Next::IsTold(Answer::Refused(refusal))
}

/// Returns what becomes of a read that goes on like this.
pub(crate) fn of_sends(sends: Sends) -> Next
    ensures { (r : states.Router) (time : ℕ) (q : states.Open) → next_view r time q result ≡ read_next q q.work sends }
{
    let Sends {
        wait,
        targets,
        mail,
    } = sends;
    Next::Stays(Stay::Reads(wait, targets), mail)
}

/// Returns what becomes of a read that goes on like this after these tries.
pub(crate) fn of_tries(tries: Vec<Try>, sends: Sends) -> Next
    ensures { (r : states.Router) (time : ℕ) (q : states.Open) →
        next_view r time q result ≡ read_next (tried_by q (tries_view tries.items)) q.work sends }
{
    let Sends {
        wait,
        targets,
        mail,
    } = sends;
    Next::Stays(Stay::ReadsAgain(tries, wait, targets), mail)
}

/// Returns what becomes of a write that goes on like this, with the answers that it had.
pub(crate) fn of_write(next: WriteNext) -> Next
    ensures { (r : states.Router) (time : ℕ) (q : states.Open) → next_view r time q result ≡ write_next r time q q.work next }
{
    match next {
        WriteNext::GoesOn(sends) => {
            let WriteSends { wait, runs, mail } = sends;
            Next::Stays(Stay::Writes(wait, runs), mail)
        }
        WriteNext::IsWritten(answer) => Next::IsTold(answer),
    }
}

/// Returns what becomes of a write that goes on like this with these answers.
pub(crate) fn of_answers(answers: Vec<Option<StatementOutcome>>, next: WriteNext) -> Next
    ensures { (r : states.Router) (time : ℕ) (q : states.Open) →
        next_view r time q result ≡ write_next r time q (answers_in q.work (answers_view answers.items) []) next }
{
    match next {
        WriteNext::GoesOn(sends) => {
            let WriteSends { wait, runs, mail } = sends;
            Next::Stays(Stay::Answers(wait, answers, runs), mail)
        }
        WriteNext::IsWritten(answer) => Next::IsTold(answer),
    }
}

/// Returns what becomes of a write that goes on like this with these answers and these tries.
pub(crate) fn of_course(
    answers: Vec<Option<StatementOutcome>>,
    tries: Vec<Vec<Try>>,
    next: WriteNext,
) -> Next
    ensures { (r : states.Router) (time : ℕ) (q : states.Open) →
        next_view r time q result ≡ write_next r time q (course_in q.work (course_view answers.items tries.items [])) next }
{
    match next {
        WriteNext::GoesOn(sends) => {
            let WriteSends { wait, runs, mail } = sends;
            let course = Course {
                answers,
                tries,
                runs,
            };
            Next::Stays(Stay::Tries(wait, course), mail)
        }
        WriteNext::IsWritten(answer) => Next::IsTold(answer),
    }
}
