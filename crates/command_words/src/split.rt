//! `split` (MongoDB manual, "split").

ghost use Rattle.std.specs.Prelude.{◌≡◌, Some, codes};
ghost use Rattle.base_model.specs.Errors.{failed_to_parse};
ghost use Rattle.command_fields.specs.FieldNames.{NamesInFull};
ghost use Rattle.command_model.specs.Command.{split_command};
ghost use Rattle.command_model.specs.Forms.{made_into};
ghost use Rattle.command_model.specs.Split.{split_form, split_rules};
ghost use Rattle.command_words.specs.Middles.{MiddlePasses};

use crate::command::Command;
use crate::draft::Draft;
use crate::forms::CommandForm;
use bson_values::{Document, Value};
use cluster_base::{Code, Namespace};
use command_fields::{
    CheckFault, Rules, check_behind_own, check_required, common_ruling, full_name_of, key_in,
    key_needed, passed,
};
use opmsg_frames::Sequence;
use std::alloc::Global;
use value_compare::Key;

/// To divide the chunk of a collection that has this key; the upper part begins with the key.
#[derive(Drop)]
pub struct SplitCommand {
    pub namespace: Namespace,
    pub middle: Key,
}

/// The form of `split`.
#[derive(Clone, Copy)]
pub(crate) struct SplitForm;

impl Rules for SplitForm {
    ghost rules = { λ _. split_rules };

    ghost unlisted_verdict = { λ _. Some failed_to_parse };

    fn ruling(&self, name: &str, value: &Value) -> Option<Option<Code>> {
        if "middle" == name {
            Some(key_needed(value))
        } else {
            common_ruling(name, value)
        }
    }

    fn unlisted(&self) -> Option<Code> {
        Some(Code::FailedToParse)
    }
}

impl CommandForm for SplitForm {
    type Own = Namespace;

    type Given = ();

    ghost form = { λ _. made_into split_command split_form };

    ghost is_name = { λ _ name. name ≡ codes "split" };

    ghost is_read = { λ _ namespace database value. NamesInFull namespace value };

    ghost are_read = { λ _ given database document. MiddlePasses document };

    fn read_own(
        &self,
        alloc: Global,
        database: &str,
        own: &Value,
    ) -> Result<Namespace, CheckFault> {
        full_name_of(alloc, database, own)
    }

    fn read_fields(
        &self,
        _alloc: Global,
        _database: &str,
        document: &Document,
    ) -> Result<(), CheckFault> {
        passed(check_behind_own(self, document))
    }

    fn check_sequence(&self, _given: bool, _sequence: &Sequence) -> Option<Code> {
        Some(Code::FailedToParse)
    }

    fn check_needed(&self, document: &Document, _sequences: &[Sequence]) -> Option<Code> {
        check_required("middle", document)
    }

    fn finish(
        &self,
        _alloc: Global,
        own: Namespace,
        _given: (),
        _value: &Value,
        document: &Document,
        _sequences: &[Sequence],
    ) -> Result<Draft, CheckFault> {
        match key_in(document, "middle")? {
            Some(middle) => Ok(Draft::Whole(Command::Split(SplitCommand {
                namespace: own,
                middle,
            }))),
            // A middle that is there and passes has a key.
            None => Err(CheckFault::Refused(Code::FailedToParse)),
        }
    }
}
