//! Writes of which a run met a later table.

ghost use Rattle.std.specs.Prelude.{◌≡◌, [], ◌∷◌, IfOk, OnOk, true};
ghost use Rattle.chunk_table.specs.Meanings.{version_view};
ghost use Rattle.command_replies.specs.Refusals.{refusal_view, shown_version_view};
ghost use Rattle.node_model.specs.RouterNext as nexts;
ghost use Rattle.reply_model.specs.Outcomes as outcomes;
ghost use Rattle.write_runs.specs.Runs.{all_tries_view, answers_view, course_of, course_view, run_view, tries_view};

use crate::copies::copies_of;
use crate::given::refuse;
use bson_values::Memory;
use chunk_table::Version;
use command_replies::{Refusal, ShownTry, ShownVersion, stale_refusal};
use protocol_model::{StatementOutcome, Try};
use std::alloc::Global;
use std::sync::Arc;
use write_runs::{Course, Run, has_all_tries, tries_at, with_tries, without_run};

/// Returns what is shown of a version.
fn version_shown(version: Version) -> ShownVersion
    ensures { shown_version_view result ≡ outcomes.version_shown (version_view version) }
{
    ShownVersion {
        epoch: version.epoch,
        major: version.major,
    }
}

/// Returns the refusal of what met a later table in each of these tries, or `Memory` if memory runs out.
pub fn refusal_by(alloc: Global, tries: &[Try]) -> Result<Refusal, Memory>
    ensures { IfOk result (λ refusal. refusal_view refusal ≡ outcomes.stale_refusal (tries_view tries.now)) }
{
    let mut shown = Vec::with_capacity(alloc, tries.len())?;
    for one in tries {
        shown.push(ShownTry {
            sent: version_shown(one.sent),
            met: version_shown(one.met),
        })?;
    }
    Ok(stale_refusal(shown))
}

/// The statement with an index is refused if it has had all its tries, unless it has an outcome. Returns `Memory` if memory runs out.
fn wear_out(
    alloc: Global,
    answers: &mut Vec<Option<StatementOutcome>>,
    index: u32,
    tries: &[Vec<Try>],
) -> Result<(), Memory>
    ensures { OnOk result (answers_view answers.new.items ≡ nexts.worn_out true (index ∷ []) (all_tries_view tries.now) (answers_view answers.old.items)) }
{
    let own = tries_at(tries, index);
    if has_all_tries(own) {
        let refusal = Arc::new(alloc, refusal_by(alloc, own)?)?;
        refuse(answers, index, &refusal)?;
    }
    Ok(())
}

/// Returns the answers where those of the statements with these indices that have had all their tries are refused, of an ordered write the first. Returns
/// `Memory` if memory runs out.
fn worn_out(
    alloc: Global,
    ordered: bool,
    indices: &[u32],
    tries: &[Vec<Try>],
    answers: &[Option<StatementOutcome>],
) -> Result<Vec<Option<StatementOutcome>>, Memory>
    ensures { IfOk result (λ list. answers_view list.items ≡ nexts.worn_out ordered indices.now (all_tries_view tries.now) (answers_view answers.now)) }
{
    let mut worn = copies_of(alloc, answers)?;
    for index in indices {
        wear_out(alloc, &mut worn, *index, tries)?;
        if ordered {
            return Ok(worn);
        }
    }
    Ok(worn)
}

/// Returns how far a write has come after one of its runs met a version of a later table: the run is no longer under way, each of its statements has one try
/// more, and those that have had all their tries are refused, of an ordered write the first. Returns `Memory` if memory runs out.
pub fn after_stale(
    alloc: Global,
    ordered: bool,
    answers: &[Option<StatementOutcome>],
    tries: &[Vec<Try>],
    runs: &[Run],
    run: &Run,
    met: Version,
) -> Result<Course, Memory>
    ensures { IfOk result (λ course. course_of course
        ≡ nexts.after_stale ordered (course_view answers.now tries.now runs.now) (run_view run.now) (version_view met)) }
{
    let one = Try {
        sent: run.sent.collection,
        met,
    };
    let tries = with_tries(alloc, tries, &run.indices, one)?;
    let answers = worn_out(alloc, ordered, &run.indices, &tries, answers)?;
    let runs = without_run(alloc, run.first(), runs)?;
    Ok(Course {
        answers,
        tries,
        runs,
    })
}
