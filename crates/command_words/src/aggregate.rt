//! `aggregate` (MongoDB manual, "aggregate").

ghost use Rattle.std.specs.Prelude.{◌≡◌, Some, codes};
ghost use Rattle.bson_model.specs.Tree.{get};
ghost use Rattle.bson_values.specs.View.{datum_of};
ghost use Rattle.command_model.specs.Aggregate.{aggregate_form, cursor_rules};
ghost use Rattle.command_model.specs.Command.{find_command};
ghost use Rattle.base_model.specs.Errors.{failed_to_parse};
ghost use Rattle.command_model.specs.Fields as fields;
ghost use Rattle.command_model.specs.Forms.{made_into};
ghost use Rattle.command_model.specs.Reading as readings;
ghost use Rattle.command_model.specs.Statements.{document_or_none};
ghost use Rattle.command_fields.specs.FieldNames.{NamesCollection};
ghost use Rattle.command_words.specs.HeldRules.{aggregate_rules_held};
ghost use Rattle.command_fields.specs.Verdicts.{verdict_view};
ghost use Rattle.command_fields.specs.Words.{pipeline_view, pipeline_read, told};

use crate::command::Command;
use crate::draft::Draft;
use crate::find::Find;
use crate::forms::CommandForm;
use crate::reading::{Batches, reading_of};
use bson_values::{Document, Value};
use cluster_base::{Code, Namespace};
use command_fields::{
    CheckFault, PipelineWord, Rules, boolean_needed, check_behind_own, check_fields,
    check_required, collection_of, common_ruling, concern_needed, natural_needed, number_given,
    pipeline_in, pipeline_told, words_in,
};
use opmsg_frames::Sequence;
use pipeline_lang::Pipeline;
use std::alloc::Global;

/// The rules of an aggregate's cursor.
#[derive(Clone, Copy)]
struct CursorRules;

impl Rules for CursorRules {
    ghost rules = { λ _. cursor_rules };

    ghost unlisted_verdict = { λ _. Some failed_to_parse };

    fn ruling(&self, name: &str, value: &Value) -> Option<Option<Code>> {
        if "batchSize" == name {
            Some(natural_needed(value))
        } else {
            None
        }
    }

    fn unlisted(&self) -> Option<Code> {
        Some(Code::FailedToParse)
    }
}

fn cursor_needed(value: &Value) -> Option<Code>
    ensures { verdict_view result ≡ fields.document_needed (fields.check_inner_fields cursor_rules) (datum_of value.now) }
{
    match value {
        Value::Doc(cursor) => check_fields(&CursorRules, cursor.fields(), 0),
        _ => Some(Code::TypeMismatch),
    }
}

// Returns the size of the first batch, where the cursor gives it.
fn size_given(document: &Document) -> Option<u64>
    ensures { result ≡ readings.number_given (codes "batchSize") (document_or_none (get (codes "cursor") document.now)) }
{
    match words_in(document, "cursor") {
        Some(cursor) => number_given(cursor, "batchSize"),
        None => None,
    }
}

/// The rules of an aggregate whose pipeline was read.
#[derive(Clone, Copy)]
struct AggregateRules<'a> {
    pipeline: &'a PipelineWord,
}

impl Rules for AggregateRules<'_> {
    ghost rules = { λ r. aggregate_rules_held (told (pipeline_view r.pipeline.now)) };

    ghost unlisted_verdict = { λ _. Some failed_to_parse };

    fn ruling(&self, name: &str, value: &Value) -> Option<Option<Code>> {
        if "pipeline" == name {
            Some(pipeline_told(self.pipeline, value))
        } else if "cursor" == name {
            Some(cursor_needed(value))
        } else if "readConcern" == name {
            Some(concern_needed(value))
        } else if "allowDiskUse" == name {
            Some(boolean_needed(value))
        } else {
            common_ruling(name, value)
        }
    }

    fn unlisted(&self) -> Option<Code> {
        Some(Code::FailedToParse)
    }
}

/// The form of `aggregate`.
#[derive(Clone, Copy)]
pub(crate) struct AggregateForm;

impl CommandForm for AggregateForm {
    type Own = Namespace;

    type Given = PipelineWord;

    ghost form = { λ _. made_into find_command aggregate_form };

    ghost is_name = { λ _ name. Unit {0} };

    ghost is_read = { λ _ namespace database value. NamesCollection namespace database value };

    ghost are_read = { λ _ word database document. pipeline_view word ≡ pipeline_read (get (codes "pipeline") document) };

    fn read_own(
        &self,
        alloc: Global,
        database: &str,
        own: &Value,
    ) -> Result<Namespace, CheckFault> {
        collection_of(alloc, database, own)
    }

    fn read_fields(
        &self,
        alloc: Global,
        _database: &str,
        document: &Document,
    ) -> Result<PipelineWord, CheckFault> {
        let pipeline = pipeline_in(alloc, document)?;
        let rules = AggregateRules {
            pipeline: &pipeline,
        };
        match check_behind_own(&rules, document) {
            Some(code) => Err(CheckFault::Refused(code)),
            None => Ok(pipeline),
        }
    }

    fn check_sequence(&self, _given: bool, _sequence: &Sequence) -> Option<Code> {
        Some(Code::FailedToParse)
    }

    fn check_needed(&self, document: &Document, _sequences: &[Sequence]) -> Option<Code> {
        if let Some(code) = check_required("pipeline", document) {
            return Some(code);
        }
        check_required("cursor", document)
    }

    fn finish(
        &self,
        alloc: Global,
        own: Namespace,
        given: PipelineWord,
        _value: &Value,
        document: &Document,
        _sequences: &[Sequence],
    ) -> Result<Draft, CheckFault> {
        let pipeline = match given {
            Ok(pipeline) => pipeline,
            Err(_) => Pipeline::of(Vec::new(alloc)),
        };
        Ok(Draft::Whole(Command::Find(Find {
            reading: reading_of(own, pipeline, document),
            batches: Batches {
                size: size_given(document),
                single: false,
            },
        })))
    }
}
