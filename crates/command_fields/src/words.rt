//! The operands of a pipeline in the fields of a command. They are read once, before the fields are checked in their order; the rule of such a field returns
//! the result of that reading.

ghost use Rattle.std.specs.Prelude.{◌≡◌, ◌++◌, IfOk, Ok, OnOk, codes, map};
ghost use Rattle.std.specs.Option.{option_map};
ghost use Rattle.bson_model.specs.Tree.{get};
ghost use Rattle.bson_values.specs.View.{datum_of};
ghost use Rattle.command_model.specs.Fields as fields;
ghost use Rattle.command_model.specs.Find.{stage_counted};
ghost use Rattle.command_model.specs.Reading.{number_given, unless_faulty, unless_zero};
ghost use Rattle.pipeline_lang.specs.View.{stage_of};
ghost use Rattle.pipeline_model.specs.Stages as model;
ghost use Rattle.command_fields.specs.Held.{Held};
ghost use Rattle.command_fields.specs.Verdicts.{ReadsBy, verdict_view};
ghost use Rattle.command_fields.specs.Words.{or_no_stages, read_words, stage_list, told, word_view, word_read, words_given};
ghost use Rattle.command_fields.specs.declared.words.WordKind.TheVariants.{Filter, Projection as Shown, Sort};

use crate::checks::number_given;
use crate::fault::CheckFault;
use bson_values::{Document, Memory, Value};
use cluster_base::Code;
use match_expr::Expr;
use pipeline_lang::Stage;
use projection::Projection;
use sort_keys::SortSpec;
use std::alloc::Global;
use std::sync::Arc;

/// What an operand is read as.
#[derive(Clone, Copy)]
pub enum WordKind {
    Filter,
    Sort,
    /// A projection; an empty one keeps all fields.
    Projection,
}

/// The stage of an operand that was read, if it is given; or the error that its field returns.
pub type Word = Result<Option<Stage>, Code>;

/// Returns what was read, or the error that is returned later. Returns `Memory` if memory runs out.
pub fn held<T: Drop>(read: Result<T, CheckFault>) -> Result<Result<T, Code>, Memory>
    ensures { Held read result }
{
    match read {
        Ok(x) => Ok(Ok(x)),
        Err(CheckFault::Refused(code)) => Ok(Err(code)),
        Err(CheckFault::Memory) => Err(Memory),
    }
}

/// Returns the document in the first field of that name, if it is one.
pub fn words_in<'a>(document: &'a Document, name: &str) -> Option<&'a Document>
    ensures { option_map (λ words. words.now) result ≡ words_given (get name.now document.now) }
{
    match document.get(name) {
        Some(value) => match value {
            Value::Doc(words) => Some(words),
            _ => None,
        },
        None => None,
    }
}

fn read_filter(alloc: Global, words: &Document) -> Result<Option<Stage>, CheckFault>
    ensures { ReadsBy (λ stage. read_words Filter words.now ≡ Ok (stage_list stage)) result (unless_faulty (read_words Filter words.now)) }
{
    let asked = Expr::parse(alloc, words)?;
    let asked = Arc::new(alloc, asked)?;
    Ok(Some(Stage::Match(asked)))
}

fn read_sort(alloc: Global, words: &Document) -> Result<Option<Stage>, CheckFault>
    ensures { ReadsBy (λ stage. read_words Sort words.now ≡ Ok (stage_list stage)) result (unless_faulty (read_words Sort words.now)) }
{
    let spec = SortSpec::parse(alloc, words)?;
    let spec = Arc::new(alloc, spec)?;
    Ok(Some(Stage::Sort(spec)))
}

fn read_projection(alloc: Global, words: &Document) -> Result<Option<Stage>, CheckFault>
    ensures { ReadsBy (λ stage. read_words Shown words.now ≡ Ok (stage_list stage)) result (unless_faulty (read_words Shown words.now)) }
{
    if words.is_empty() {
        return Ok(None);
    }
    let rules = Projection::parse(alloc, words)?;
    let rules = Arc::new(alloc, rules)?;
    Ok(Some(Stage::Project(rules)))
}

// Returns the stage that an operand is, if any.
fn read_stage(alloc: Global, kind: WordKind, words: &Document) -> Result<Option<Stage>, CheckFault>
    ensures { ReadsBy (λ stage. read_words kind words.now ≡ Ok (stage_list stage)) result (unless_faulty (read_words kind words.now)) }
{
    match kind {
        WordKind::Filter => read_filter(alloc, words),
        WordKind::Sort => read_sort(alloc, words),
        WordKind::Projection => read_projection(alloc, words),
    }
}

/// Reads the operand in the first field of that name; no stage where it is not a document. Returns `Memory` if memory runs out.
pub fn word_in(
    alloc: Global,
    kind: WordKind,
    document: &Document,
    name: &str,
) -> Result<Word, Memory>
    ensures { IfOk result (λ word. word_view word ≡ word_read kind (get name.now document.now)) }
{
    match words_in(document, name) {
        Some(words) => held(read_stage(alloc, kind, words)),
        None => Ok(Ok(None)),
    }
}

/// Returns the result of a field's rule for a value, given the first one as it was read: its error, or `TypeMismatch` for a value that is not a document.
pub fn word_told(word: &Word, value: &Value) -> Option<Code>
    ensures { verdict_view result ≡ fields.document_needed (λ ms. told (word_view word.now)) (datum_of value.now) }
{
    match value {
        Value::Doc(_) => match word {
            Ok(_) => None,
            Err(code) => Some(*code),
        },
        _ => Some(Code::TypeMismatch),
    }
}

/// Appends a stage, if there is one. Returns `Memory` if memory runs out.
pub(crate) fn put(stages: &mut Vec<Stage>, stage: Option<Stage>) -> Result<(), Memory>
    ensures { OnOk result (map stage_of stages.new.items ≡ map stage_of stages.old.items ++ stage_list stage) }
{
    if let Some(stage) = stage {
        stages.push(stage)?;
    }
    Ok(())
}

/// Appends the stage of an operand, if it is given. Returns `Memory` if memory runs out.
pub fn put_word(stages: &mut Vec<Stage>, word: Word) -> Result<(), Memory>
    ensures { OnOk result (map stage_of stages.new.items ≡ map stage_of stages.old.items ++ or_no_stages (word_view word)) }
{
    match word {
        Ok(stage) => put(stages, stage),
        Err(_) => Ok(()),
    }
}

// Returns how many documents are skipped or kept, where the number is not 0.
fn some_given(document: &Document, name: &str) -> Option<u64>
    ensures { result ≡ unless_zero (number_given name.now document.now) }
{
    match number_given(document, name) {
        Some(0) => None,
        number => number,
    }
}

/// Appends the stages of how many documents are skipped, and how many are kept. Returns `Memory` if memory runs out.
pub fn put_numbers(stages: &mut Vec<Stage>, document: &Document) -> Result<(), Memory>
    ensures { OnOk result (map stage_of stages.new.items ≡ (map stage_of stages.old.items
        ++ stage_counted model.skip_stage (codes "skip") document.now) ++ stage_counted model.limit_stage (codes "limit") document.now) }
{
    if let Some(number) = some_given(document, "skip") {
        stages.push(Stage::Skip(number))?;
    }
    if let Some(number) = some_given(document, "limit") {
        stages.push(Stage::Limit(number))?;
    }
    Ok(())
}
