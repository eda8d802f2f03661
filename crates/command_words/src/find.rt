//! `find` (MongoDB manual, "find").

ghost use Rattle.std.specs.Prelude.{◌≡◌, IfOk, Some, drop};
ghost use Rattle.std.specs.Option.{option_map};
ghost use Rattle.bson_values.specs.View.{datum_of};
ghost use Rattle.command_model.specs.Command.{find_command};
ghost use Rattle.base_model.specs.Errors.{failed_to_parse};
ghost use Rattle.command_model.specs.Fields.{find_rule};
ghost use Rattle.command_model.specs.Find.{find_form, find_rules, find_stages};
ghost use Rattle.command_model.specs.Forms.{made_into};
ghost use Rattle.command_fields.specs.FieldNames.{NamesCollection};
ghost use Rattle.command_words.specs.FindWords.{AreFindWords, rules_with};
ghost use Rattle.command_fields.specs.Verdicts.{ruling_view};

use crate::command::Command;
use crate::draft::Draft;
use crate::forms::CommandForm;
use crate::reading::{Batches, Reading, reading_of};
use bson_values::{Document, Memory, Value};
use cluster_base::{Code, Namespace};
use command_fields::{
    CheckFault, Rules, Word, WordKind, boolean_needed, boolean_or, check_behind_own, collection_of,
    common_ruling, concern_needed, false_needed, natural_needed, number_given, put_numbers,
    put_word, word_in, word_told,
};
use opmsg_frames::Sequence;
use pipeline_lang::Pipeline;
use std::alloc::Global;

/// To read documents, in batches.
#[derive(Drop)]
pub struct Find {
    pub reading: Reading,
    pub batches: Batches,
}

/// The operands of a find, as they were read.
#[derive(Drop)]
pub(crate) struct FindWords {
    pub filter: Word,
    pub sort: Word,
    pub projection: Word,
}

// Reads the operands in a find's document. Returns `Memory` if memory runs out.
fn words_of(alloc: Global, document: &Document) -> Result<FindWords, Memory>
    ensures { IfOk result (λ words. AreFindWords words document.now) }
{
    Ok(FindWords {
        filter: word_in(alloc, WordKind::Filter, document, "filter")?,
        sort: word_in(alloc, WordKind::Sort, document, "sort")?,
        projection: word_in(alloc, WordKind::Projection, document, "projection")?,
    })
}

// Returns the pipeline of a find with these operands, or `Memory` if memory runs out.
fn pipeline_of(alloc: Global, words: FindWords, document: &Document) -> Result<Pipeline, Memory>
    ensures { AreFindWords words document.now → IfOk result (λ pipeline. pipeline ≡ find_stages document.now) }
{
    let mut stages = Vec::new(alloc);
    put_word(&mut stages, words.filter)?;
    put_word(&mut stages, words.sort)?;
    put_numbers(&mut stages, document)?;
    put_word(&mut stages, words.projection)?;
    Ok(Pipeline::of(stages))
}

// Returns the result of the rules for a field that is not an operand.
fn plain_ruling(name: &str, value: &Value) -> Option<Option<Code>>
    ensures { ruling_view result ≡ option_map (λ r. r.check (datum_of value.now)) (find_rule name.now (drop 3 find_rules)) }
{
    if "skip" == name || "limit" == name || "batchSize" == name {
        Some(natural_needed(value))
    } else if "singleBatch" == name
        || "allowDiskUse" == name
        || "noCursorTimeout" == name
        || "allowPartialResults" == name
    {
        Some(boolean_needed(value))
    } else if "readConcern" == name {
        Some(concern_needed(value))
    } else if "returnKey" == name
        || "showRecordId" == name
        || "tailable" == name
        || "awaitData" == name
    {
        Some(false_needed(value))
    } else {
        common_ruling(name, value)
    }
}

/// The rules of a find whose operands were read.
#[derive(Clone, Copy)]
struct FindRules<'a> {
    words: &'a FindWords,
}

impl Rules for FindRules<'_> {
    ghost rules = { λ r. rules_with r.words.now };

    ghost unlisted_verdict = { λ _. Some failed_to_parse };

    fn ruling(&self, name: &str, value: &Value) -> Option<Option<Code>> {
        if "filter" == name {
            Some(word_told(&self.words.filter, value))
        } else if "sort" == name {
            Some(word_told(&self.words.sort, value))
        } else if "projection" == name {
            Some(word_told(&self.words.projection, value))
        } else {
            plain_ruling(name, value)
        }
    }

    fn unlisted(&self) -> Option<Code> {
        Some(Code::FailedToParse)
    }
}

/// The form of `find`.
#[derive(Clone, Copy)]
pub(crate) struct FindForm;

impl CommandForm for FindForm {
    type Own = Namespace;

    type Given = FindWords;

    ghost form = { λ _. made_into find_command find_form };

    ghost is_name = { λ _ name. Unit {0} };

    ghost is_read = { λ _ namespace database value. NamesCollection namespace database value };

    ghost are_read = { λ _ words database document. AreFindWords words document };

    fn read_own(
        &self,
        alloc: Global,
        database: &str,
        own: &Value,
    ) -> Result<Namespace, CheckFault> {
        collection_of(alloc, database, own)
    }

    fn read_fields(
        &self,
        alloc: Global,
        _database: &str,
        document: &Document,
    ) -> Result<FindWords, CheckFault> {
        let words = words_of(alloc, document)?;
        match check_behind_own(&FindRules { words: &words }, document) {
            Some(code) => Err(CheckFault::Refused(code)),
            None => Ok(words),
        }
    }

    fn check_sequence(&self, _given: bool, _sequence: &Sequence) -> Option<Code> {
        Some(Code::FailedToParse)
    }

    fn check_needed(&self, _document: &Document, _sequences: &[Sequence]) -> Option<Code> {
        None
    }

    fn finish(
        &self,
        alloc: Global,
        own: Namespace,
        given: FindWords,
        _value: &Value,
        document: &Document,
        _sequences: &[Sequence],
    ) -> Result<Draft, CheckFault> {
        let pipeline = pipeline_of(alloc, given, document)?;
        Ok(Draft::Whole(Command::Find(Find {
            reading: reading_of(own, pipeline, document),
            batches: Batches {
                size: number_given(document, "batchSize"),
                single: boolean_or(false, document, "singleBatch"),
            },
        })))
    }
}
