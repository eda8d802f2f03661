//! The keys and the errors in the answer to a write.

ghost use Rattle.std.specs.Prelude.{◌≡◌, ◌≤◌, ◌++◌, ◌∷◌, [], IfOk, IsTrue, OnOk, map};
ghost use Rattle.std.specs.Arc.{arc_value};
ghost use Rattle.std.specs.Option.{option_map};
ghost use Rattle.command_replies.specs.Errors.{errors_view};
ghost use Rattle.command_replies.specs.Refusals.{refusal_view};
ghost use Rattle.command_replies.specs.Upserts.{upserted_view};
ghost use Rattle.command_model.specs.CommandLimits.{most_bytes_upserted};
ghost use Rattle.command_model.specs.CommandSizes.{keys_length};
ghost use Rattle.reply_model.specs.Outcomes as outcomes;
ghost use Rattle.protocol_model.specs.Statements.{answer_view, done_view};

use bson_values::Memory;
use cluster_base::Code;
use command_replies::{Evidence, Refusal, StatementIndex, Upserted, WriteError};
use protocol_model::{Done, StatementOutcome};
use std::alloc::Global;
use std::sync::Arc;
use value_compare::Key;

/// The greatest number of bytes of the keys that the statements of one command upsert.
const MOST_BYTES_UPSERTED: usize = 250_000_000;

/// Returns the index of a statement that was answered, or `Memory` where no command can have it.
fn index_of(done: &Done) -> Result<StatementIndex, Memory>
    ensures { IfOk result (λ index. index ≡ done.now.index) }
{
    match StatementIndex::of(done.index) {
        Some(index) => Ok(index),
        None => Err(Memory),
    }
}

/// Returns the key that a statement upserted, if it did.
fn key_of(answer: &StatementOutcome) -> Option<&Arc<Key, Global>>
    ensures { option_map (λ k. arc_value k.now) result ≡ (outcomes.outcome_in (answer_view answer.now)).upserted }
{
    match answer {
        StatementOutcome::WasDone { outcome, .. } => outcome.upserted.as_ref(),
        StatementOutcome::Older(_) | StatementOutcome::WasRefused(_) => None,
    }
}

/// Appends the key that a statement upserted, if it did. Returns `Memory` if memory runs out, and where no command can have its index.
#[tactic(auto, using(crate::proofs::Counted::keys_pushed, crate::proofs::Counted::key_told))]
fn add_key(keys: &mut Vec<Upserted>, done: &Done) -> Result<(), Memory>
    ensures { OnOk result (upserted_view keys.new.items ≡ upserted_view keys.old.items ++ outcomes.upserted_by (done_view done.now ∷ [])) }
{
    let Some(key) = key_of(&done.answer) else {
        return Ok(());
    };
    let index = index_of(done)?;
    let key = Arc::try_clone(key)?;
    keys.push(Upserted { index, key })?;
    Ok(())
}

/// Returns the upserted keys, in order; they are shared. Returns `Memory` if memory runs out, and where no command can have an index.
fn keys_of(alloc: Global, dones: &[Done]) -> Result<Vec<Upserted>, Memory>
    ensures { IfOk result (λ keys. upserted_view keys.items ≡ outcomes.upserted_by (map done_view dones.now)) }
{
    let mut keys = Vec::new(alloc);
    for done in dones {
        add_key(&mut keys, done)?;
    }
    Ok(keys)
}

/// Returns whether keys are short enough for one answer.
#[tactic(auto, using(crate::proofs::Counted::length_on))]
fn are_short(keys: &[Upserted]) -> bool
    ensures { IsTrue result → keys_length (upserted_view keys.now) ≤ most_bytes_upserted }
{
    let mut room = MOST_BYTES_UPSERTED;
    for key in keys {
        let size = key.key.value().size();
        if size > room {
            return false;
        }
        room -= size;
    }
    true
}

/// Returns the upserted keys, in order; they are shared. Returns `Memory` if memory runs out, where no command can have an index, and where the keys are
/// together longer than an answer can have.
pub(crate) fn upserted_by(alloc: Global, dones: &[Done]) -> Result<Vec<Upserted>, Memory>
    ensures keys { IfOk result (λ keys. upserted_view keys.items ≡ outcomes.upserted_by (map done_view dones.now)) }
    ensures short { IfOk result (λ keys. keys_length (upserted_view keys.items) ≤ most_bytes_upserted) }
{
    let keys = keys_of(alloc, dones)?;
    if are_short(&keys) {
        Ok(keys)
    } else {
        Err(Memory)
    }
}

/// Returns the error of a statement, if it has one, with its evidence. Returns `Memory` if memory runs out.
fn refusal_of(alloc: Global, answer: &StatementOutcome) -> Result<Option<Refusal>, Memory>
    ensures { IfOk result (λ found. option_map refusal_view found ≡ outcomes.refusal_in (answer_view answer.now)) }
{
    match answer {
        StatementOutcome::WasDone { outcome, .. } => match outcome.error {
            Some(code) => Ok(Some(Refusal {
                code,
                evidence: Evidence::Nothing,
            })),
            None => Ok(None),
        },
        StatementOutcome::Older(greatest) => Ok(Some(Refusal {
            code: Code::TransactionTooOld,
            evidence: Evidence::Number { number: *greatest },
        })),
        StatementOutcome::WasRefused(refusal) => Ok(Some(refusal.copy(alloc)?)),
    }
}

/// Appends the error of a statement, if it has one. Returns `Memory` if memory runs out, and where no command can have its index.
#[tactic(auto, using(crate::proofs::Counted::errors_pushed, crate::proofs::Counted::error_told))]
fn add_error(alloc: Global, errors: &mut Vec<WriteError>, done: &Done) -> Result<(), Memory>
    ensures { OnOk result (errors_view errors.new.items ≡ errors_view errors.old.items ++ outcomes.errors_of (done_view done.now ∷ [])) }
{
    let Some(refusal) = refusal_of(alloc, &done.answer)? else {
        return Ok(());
    };
    let index = index_of(done)?;
    errors.push(WriteError { index, refusal })?;
    Ok(())
}

/// Returns the errors, in order. Returns `Memory` if memory runs out, and where no command can have an index.
pub(crate) fn errors_of(alloc: Global, dones: &[Done]) -> Result<Vec<WriteError>, Memory>
    ensures { IfOk result (λ errors. errors_view errors.items ≡ outcomes.errors_of (map done_view dones.now)) }
{
    let mut errors = Vec::new(alloc);
    for done in dones {
        add_error(alloc, &mut errors, done)?;
    }
    Ok(errors)
}
