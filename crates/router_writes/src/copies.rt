//! Copies of outcomes.

ghost use Rattle.std.specs.Prelude.{◌≡◌, IfOk};
ghost use Rattle.std.specs.Option.{option_map};
ghost use Rattle.protocol_model.specs.Statements.{answer_view};
ghost use Rattle.write_runs.specs.Runs.{answers_view};

use bson_values::Memory;
use protocol_model::StatementOutcome;
use std::alloc::Global;

/// Returns a copy of the outcome of a statement that may have one, or `Memory` if memory runs out.
fn copy_place(answer: &Option<StatementOutcome>) -> Result<Option<StatementOutcome>, Memory>
    ensures { IfOk result (λ copy. option_map answer_view copy ≡ option_map answer_view answer.now) }
{
    match answer {
        Some(outcome) => Ok(Some(outcome.copy()?)),
        None => Ok(None),
    }
}

/// Returns copies of the answers, or `Memory` if memory runs out.
pub(crate) fn copies_of(
    alloc: Global,
    answers: &[Option<StatementOutcome>],
) -> Result<Vec<Option<StatementOutcome>>, Memory>
    ensures { IfOk result (λ list. answers_view list.items ≡ answers_view answers.now) }
{
    let mut copies = Vec::new(alloc);
    for answer in answers {
        copies.push(copy_place(answer)?)?;
    }
    Ok(copies)
}
