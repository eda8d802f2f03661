//! Statements of a write that are given up.

ghost use Rattle.std.specs.Prelude.{◌≡◌, IfOk, OnOk};
ghost use Rattle.std.specs.Arc.{arc_value};
ghost use Rattle.command_replies.specs.Refusals.{refusal_view};
ghost use Rattle.node_model.specs.RouterNext as nexts;
ghost use Rattle.reply_model.specs.Outcomes as outcomes;
ghost use Rattle.write_runs.specs.Runs.{answers_view};

use crate::copies::copies_of;
use crate::noted::{is_open, put};
use bson_values::Memory;
use command_replies::Refusal;
use protocol_model::StatementOutcome;
use std::alloc::Global;
use std::sync::Arc;

/// The statement with an index is refused, unless it has an outcome; the refusal is shared. Returns `Memory` if memory runs out.
pub(crate) fn refuse(
    answers: &mut Vec<Option<StatementOutcome>>,
    index: u32,
    refusal: &Arc<Refusal, Global>,
) -> Result<(), Memory>
    ensures { OnOk result (answers_view answers.new.items
        ≡ outcomes.with_outcome index (outcomes.was_refused (refusal_view (arc_value refusal.now))) (answers_view answers.old.items)) }
{
    let place = index as usize;
    if is_open(place, answers) {
        let shared = Arc::try_clone(refusal)?;
        put(answers, place, Some(StatementOutcome::WasRefused(shared)));
    }
    Ok(())
}

/// Returns the answers where the statements with these indices are given up: each is refused for this reason, of an ordered write the first, which ends it.
/// Returns `Memory` if memory runs out.
pub fn given_up(
    alloc: Global,
    ordered: bool,
    refusal: &Refusal,
    indices: &[u32],
    answers: &[Option<StatementOutcome>],
) -> Result<Vec<Option<StatementOutcome>>, Memory>
    ensures { IfOk result (λ list. answers_view list.items
        ≡ nexts.given_up ordered (refusal_view refusal.now) indices.now (answers_view answers.now)) }
{
    let mut given = copies_of(alloc, answers)?;
    let shared = Arc::new(alloc, refusal.copy(alloc)?)?;
    for index in indices {
        refuse(&mut given, *index, &shared)?;
        if ordered {
            return Ok(given);
        }
    }
    Ok(given)
}
