//! Which statements of a write have outcomes.

ghost use Rattle.std.specs.Prelude.{◌≡◌, ◌≢◌, ◌≤◌, ◌<◌, IfOk, IfSome, None, OnOk, Option, map, vec_len};
ghost use Rattle.std.specs.Bool.{MatchBool};
ghost use Rattle.std.specs.List.{slice_set};
ghost use Rattle.command_model.specs.Writes.{ClientNumber};
ghost use Rattle.base_model.specs.Identities as identities;
ghost use Rattle.reply_model.specs.Outcomes as outcomes;
ghost use Rattle.node_model.specs.RouterNext as nexts;
ghost use Rattle.protocol_model.specs.Statements.{done_view, statement_view};
ghost use Rattle.router_writes.specs.Places as places;
ghost use Rattle.write_runs.specs.Runs.{answers_view};

use crate::copies::copies_of;
use bson_values::Memory;
use protocol_model::{Done, Statement, StatementOutcome};
use std::alloc::Global;

/// Returns a place without an outcome for each statement, or `Memory` if memory runs out.
pub fn none_yet(
    alloc: Global,
    statements: &[Statement],
) -> Result<Vec<Option<StatementOutcome>>, Memory>
    ensures { (given : Option ClientNumber) (id : identities.RequestId) → IfOk result (λ list.
        answers_view list.items ≡ outcomes.none_yet (map (λ s. statement_view given id s) statements.now)) }
{
    let mut places = Vec::new(alloc);
    for _statement in statements {
        places.push(None)?;
    }
    Ok(places)
}

/// Returns whether all statements are answered, or those up to an error that ends the command.
pub fn is_answered(ordered: bool, answers: &[Option<StatementOutcome>]) -> bool
    ensures { result ≡ nexts.is_answered ordered (answers_view answers.now) }
{
    for answer in answers {
        let Some(outcome) = answer else {
            return false;
        };
        if ordered && outcome.fails() {
            return true;
        }
    }
    true
}

/// Returns the index of the first statement without an outcome, or how many there are. It is not before this one.
fn first_from(answers: &[Option<StatementOutcome>], from: usize) -> usize
    requires { from ≤ places.first_open (answers_view answers.now) }
    ensures { result ≡ places.first_open (answers_view answers.now) }
{
    let mut first = from;
    'places: while first < answers.len() {
        if answers[first].is_none() {
            return first;
        }
        first += 1;
    }
    first
}

/// Returns whether the statement with this index has no outcome yet.
pub(crate) fn is_open(index: usize, answers: &[Option<StatementOutcome>]) -> bool
    ensures { result ≡ places.is_open index (answers_view answers.now) }
{
    index < answers.len() && answers[index].is_none()
}

/// Returns whether the outcome of the statement with this index is new, where `first` is the first statement without one.
fn is_new(ordered: bool, index: usize, answers: &[Option<StatementOutcome>], first: usize) -> bool
    requires { first ≡ places.first_open (answers_view answers.now) }
    ensures { result ≡ places.is_new ordered index (answers_view answers.now) }
{
    if ordered && first < index {
        return false;
    }
    is_open(index, answers)
}

/// Stores an item at a place of a list.
pub(crate) fn put<T: Drop>(list: &mut Vec<T>, place: usize, item: T)
    requires { place < vec_len list.old }
    ensures { list.new.items ≡ slice_set list.old.items place item }
{
    list[place] = item;
}

/// Notes an outcome, if it is new, and moves on `first`, the first statement without one. Returns whether it is new, or `Memory` if memory runs out.
fn note_one(
    ordered: bool,
    done: &Done,
    answers: &mut Vec<Option<StatementOutcome>>,
    first: &mut usize,
) -> Result<bool, Memory>
    requires { first.old ≡ places.first_open (answers_view answers.old.items) }
    ensures answers { OnOk result (answers_view answers.new.items ≡ nexts.with_done ordered (done_view done.now) (answers_view answers.old.items)) }
    ensures first { OnOk result (first.new ≡ places.first_open (answers_view answers.new.items)) }
    ensures changed { IfOk result (λ changed. MatchBool changed
        (places.answered (answers_view answers.old.items) < places.answered (answers_view answers.new.items))
        (answers_view answers.new.items ≡ answers_view answers.old.items)) }
{
    let index = done.index as usize;
    if !is_new(ordered, index, answers, *first) {
        return Ok(false);
    }
    let outcome = done.answer.copy()?;
    put(answers, index, Some(outcome));
    *first = first_from(answers, *first);
    Ok(true)
}

/// Returns the answers with the outcomes that arrive, where any is new; of an ordered write only those whose statements before them have outcomes. Returns
/// `Memory` if memory runs out.
pub fn note(
    alloc: Global,
    ordered: bool,
    answers: &[Option<StatementOutcome>],
    dones: &[Done],
) -> Result<Option<Vec<Option<StatementOutcome>>>, Memory>
    ensures news { IfOk result (λ found. IfSome found (λ list. answers_view list.items ≡ nexts.noted ordered (answers_view answers.now) (map done_view dones.now))) }
    ensures changed { IfOk result (λ found. IfSome found (λ list. nexts.noted ordered (answers_view answers.now) (map done_view dones.now) ≢ answers_view answers.now)) }
    ensures none { IfOk result (λ found. found ≡ None → nexts.noted ordered (answers_view answers.now) (map done_view dones.now) ≡ answers_view answers.now) }
{
    let mut noted = copies_of(alloc, answers)?;
    let mut first = first_from(&noted, 0);
    let mut changed = false;
    for done in dones {
        if note_one(ordered, done, &mut noted, &mut first)? {
            changed = true;
        }
    }
    Ok(if changed { Some(noted) } else { None })
}
