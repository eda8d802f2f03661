//! `shardCollection` (MongoDB manual, "shardCollection").

ghost use Rattle.std.specs.Prelude.{Some};
ghost use Rattle.base_model.specs.Errors.{failed_to_parse};
ghost use Rattle.command_fields.specs.FieldNames.{NamesInFull};
ghost use Rattle.command_model.specs.Command.{shard_collection_command};
ghost use Rattle.command_model.specs.Forms.{made_into};
ghost use Rattle.command_model.specs.ShardCollection.{shard_collection_form, shard_collection_rules};

use crate::command::Command;
use crate::draft::Draft;
use crate::forms::CommandForm;
use bson_values::{Document, Value};
use cluster_base::{Code, Namespace};
use command_fields::{
    CheckFault, Rules, check_behind_own, check_required, common_ruling, full_name_of, passed,
    shard_key_needed,
};
use opmsg_frames::Sequence;
use std::alloc::Global;

/// The form of `shardCollection`.
#[derive(Clone, Copy)]
pub(crate) struct ShardForm;

impl Rules for ShardForm {
    ghost rules = { λ _. shard_collection_rules };

    ghost unlisted_verdict = { λ _. Some failed_to_parse };

    fn ruling(&self, name: &str, value: &Value) -> Option<Option<Code>> {
        if "key" == name {
            Some(shard_key_needed(value))
        } else {
            common_ruling(name, value)
        }
    }

    fn unlisted(&self) -> Option<Code> {
        Some(Code::FailedToParse)
    }
}

impl CommandForm for ShardForm {
    type Own = Namespace;

    type Given = ();

    ghost form = { λ _. made_into shard_collection_command shard_collection_form };

    ghost is_name = { λ _ name. Unit {0} };

    ghost is_read = { λ _ namespace database value. NamesInFull namespace value };

    ghost are_read = { λ _ given database document. Unit {0} };

    fn read_own(
        &self,
        alloc: Global,
        database: &str,
        own: &Value,
    ) -> Result<Namespace, CheckFault> {
        full_name_of(alloc, database, own)
    }

    fn read_fields(
        &self,
        _alloc: Global,
        _database: &str,
        document: &Document,
    ) -> Result<(), CheckFault> {
        passed(check_behind_own(self, document))
    }

    fn check_sequence(&self, _given: bool, _sequence: &Sequence) -> Option<Code> {
        Some(Code::FailedToParse)
    }

    fn check_needed(&self, document: &Document, _sequences: &[Sequence]) -> Option<Code> {
        check_required("key", document)
    }

    fn finish(
        &self,
        _alloc: Global,
        own: Namespace,
        _given: (),
        _value: &Value,
        _document: &Document,
        _sequences: &[Sequence],
    ) -> Result<Draft, CheckFault> {
        Ok(Draft::Whole(Command::ShardCollection(own)))
    }
}
