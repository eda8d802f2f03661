//! `count` (MongoDB manual, "count").

ghost use Rattle.std.specs.Prelude.{◌≡◌, IfOk, Some, codes};
ghost use Rattle.bson_model.specs.Tree.{get};
ghost use Rattle.command_model.specs.Command.{count_command};
ghost use Rattle.command_model.specs.Count.{count_form, count_stages};
ghost use Rattle.base_model.specs.Errors.{failed_to_parse};
ghost use Rattle.command_model.specs.Forms.{made_into};
ghost use Rattle.command_fields.specs.FieldNames.{NamesCollection};
ghost use Rattle.command_words.specs.HeldRules.{count_rules_held};
ghost use Rattle.command_fields.specs.Words.{told, word_view, word_read};
ghost use Rattle.command_fields.specs.declared.words.WordKind.TheVariants.{Filter};

use crate::command::Command;
use crate::draft::Draft;
use crate::forms::CommandForm;
use crate::reading::reading_of;
use bson_values::{Document, Memory, Name, Value};
use cluster_base::{Code, Namespace};
use command_fields::{
    CheckFault, Rules, Word, WordKind, check_behind_own, collection_of, common_ruling,
    concern_needed, natural_needed, put_numbers, put_word, word_in, word_told,
};
use opmsg_frames::Sequence;
use pipeline_lang::{Pipeline, Stage};
use std::alloc::Global;

// Returns the pipeline of a count with this query, or `Memory` if memory runs out.
fn pipeline_of(alloc: Global, query: Word, document: &Document) -> Result<Pipeline, Memory>
    ensures { word_view query ≡ word_read Filter (get (codes "query") document.now) → IfOk result (λ pipeline. pipeline ≡ count_stages document.now) }
{
    let mut stages = Vec::new(alloc);
    put_word(&mut stages, query)?;
    put_numbers(&mut stages, document)?;
    stages.push(Stage::Count(Name::of(alloc, "n")?))?;
    Ok(Pipeline::of(stages))
}

/// The rules of a count whose query was read.
#[derive(Clone, Copy)]
struct CountRules<'a> {
    query: &'a Word,
}

impl Rules for CountRules<'_> {
    ghost rules = { λ r. count_rules_held (told (word_view r.query.now)) };

    ghost unlisted_verdict = { λ _. Some failed_to_parse };

    fn ruling(&self, name: &str, value: &Value) -> Option<Option<Code>> {
        if "query" == name {
            Some(word_told(self.query, value))
        } else if "skip" == name || "limit" == name {
            Some(natural_needed(value))
        } else if "readConcern" == name {
            Some(concern_needed(value))
        } else {
            common_ruling(name, value)
        }
    }

    fn unlisted(&self) -> Option<Code> {
        Some(Code::FailedToParse)
    }
}

/// The form of `count`.
#[derive(Clone, Copy)]
pub(crate) struct CountForm;

impl CommandForm for CountForm {
    type Own = Namespace;

    type Given = Word;

    ghost form = { λ _. made_into count_command count_form };

    ghost is_name = { λ _ name. Unit {0} };

    ghost is_read = { λ _ namespace database value. NamesCollection namespace database value };

    ghost are_read = { λ _ query database document. word_view query ≡ word_read Filter (get (codes "query") document) };

    fn read_own(
        &self,
        alloc: Global,
        database: &str,
        own: &Value,
    ) -> Result<Namespace, CheckFault> {
        collection_of(alloc, database, own)
    }

    fn read_fields(
        &self,
        alloc: Global,
        _database: &str,
        document: &Document,
    ) -> Result<Word, CheckFault> {
        let query = word_in(alloc, WordKind::Filter, document, "query")?;
        match check_behind_own(&CountRules { query: &query }, document) {
            Some(code) => Err(CheckFault::Refused(code)),
            None => Ok(query),
        }
    }

    fn check_sequence(&self, _given: bool, _sequence: &Sequence) -> Option<Code> {
        Some(Code::FailedToParse)
    }

    fn check_needed(&self, _document: &Document, _sequences: &[Sequence]) -> Option<Code> {
        None
    }

    fn finish(
        &self,
        alloc: Global,
        own: Namespace,
        given: Word,
        _value: &Value,
        document: &Document,
        _sequences: &[Sequence],
    ) -> Result<Draft, CheckFault> {
        let pipeline = pipeline_of(alloc, given, document)?;
        Ok(Draft::Whole(Command::Count(reading_of(own, pipeline, document))))
    }
}
