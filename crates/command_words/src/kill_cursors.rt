//! `killCursors` (MongoDB manual, "killCursors").

ghost use Rattle.std.specs.Prelude.{◌≡◌, [], IfOk, Some, codes};
ghost use Rattle.bson_model.specs.Tree.{get};
ghost use Rattle.bson_values.specs.View.{datum_of, items_of};
ghost use Rattle.command_model.specs.Command.{kill_command};
ghost use Rattle.command_model.specs.KillCursors as model;
ghost use Rattle.command_model.specs.KillCursors.{kill_form, kill_rules};
ghost use Rattle.base_model.specs.Errors.{failed_to_parse};
ghost use Rattle.command_model.specs.Forms.{made_into};
ghost use Rattle.command_fields.specs.FieldNames.{NamesCollection};
ghost use Rattle.command_fields.specs.Verdicts.{verdict_view};

use crate::command::Command;
use crate::draft::Draft;
use crate::forms::CommandForm;
use bson_values::{Document, Memory, Value};
use cluster_base::{Code, Namespace};
use command_fields::{
    CheckFault, Rules, check_behind_own, check_required, collection_of, common_ruling, passed,
    unless_passes, whole_number,
};
use opmsg_frames::Sequence;
use std::alloc::Global;

/// To close cursors, in order.
#[derive(Drop)]
pub struct KillCursors {
    pub namespace: Namespace,
    pub cursors: Vec<i64>,
}

fn are_whole_numbers(values: &[Value]) -> bool
    ensures { result ≡ model.are_whole_numbers (items_of values.now) }
{
    for value in values {
        if whole_number(value).is_none() {
            return false;
        }
    }
    true
}

fn cursors_needed(value: &Value) -> Option<Code>
    ensures { verdict_view result ≡ model.cursors_needed (datum_of value.now) }
{
    match value {
        Value::Array(array) => unless_passes(are_whole_numbers(array.values()), Code::TypeMismatch),
        _ => Some(Code::TypeMismatch),
    }
}

// Returns the numbers that these values are, 0 for another value. Returns `Memory` if memory runs out.
fn numbers_in(alloc: Global, values: &[Value]) -> Result<Vec<i64>, Memory>
    ensures { IfOk result (λ numbers. numbers.items ≡ model.numbers_in (items_of values.now)) }
{
    let mut numbers = Vec::new(alloc);
    for value in values {
        numbers.push(whole_number(value).unwrap_or(0))?;
    }
    Ok(numbers)
}

// Returns the cursors that a document names, or `Memory` if memory runs out.
fn cursors_named(alloc: Global, document: &Document) -> Result<Vec<i64>, Memory>
    ensures { IfOk result (λ numbers. numbers.items ≡ model.cursors_named (get (codes "cursors") document.now)) }
{
    match document.get("cursors") {
        Some(value) => match value {
            Value::Array(array) => numbers_in(alloc, array.values()),
            _ => Ok(Vec::new(alloc)),
        },
        None => Ok(Vec::new(alloc)),
    }
}

/// The form of `killCursors`.
#[derive(Clone, Copy)]
pub(crate) struct KillForm;

impl Rules for KillForm {
    ghost rules = { λ _. kill_rules [] };

    ghost unlisted_verdict = { λ _. Some failed_to_parse };

    fn ruling(&self, name: &str, value: &Value) -> Option<Option<Code>> {
        if "cursors" == name {
            Some(cursors_needed(value))
        } else {
            common_ruling(name, value)
        }
    }

    fn unlisted(&self) -> Option<Code> {
        Some(Code::FailedToParse)
    }
}

impl CommandForm for KillForm {
    type Own = Namespace;

    type Given = ();

    ghost form = { λ _. made_into kill_command kill_form };

    ghost is_name = { λ _ name. Unit {0} };

    ghost is_read = { λ _ namespace database value. NamesCollection namespace database value };

    ghost are_read = { λ _ given database document. Unit {0} };

    fn read_own(
        &self,
        alloc: Global,
        database: &str,
        own: &Value,
    ) -> Result<Namespace, CheckFault> {
        collection_of(alloc, database, own)
    }

    fn read_fields(
        &self,
        _alloc: Global,
        _database: &str,
        document: &Document,
    ) -> Result<(), CheckFault> {
        passed(check_behind_own(self, document))
    }

    fn check_sequence(&self, _given: bool, _sequence: &Sequence) -> Option<Code> {
        Some(Code::FailedToParse)
    }

    fn check_needed(&self, document: &Document, _sequences: &[Sequence]) -> Option<Code> {
        check_required("cursors", document)
    }

    fn finish(
        &self,
        alloc: Global,
        own: Namespace,
        _given: (),
        _value: &Value,
        document: &Document,
        _sequences: &[Sequence],
    ) -> Result<Draft, CheckFault> {
        let cursors = cursors_named(alloc, document)?;
        Ok(Draft::Whole(Command::KillCursors(KillCursors {
            namespace: own,
            cursors,
        })))
    }
}
