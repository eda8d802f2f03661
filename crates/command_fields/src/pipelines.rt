//! The pipeline in a field of a command. It is read once, before the fields are checked in their order; its rule returns the result of that reading.

ghost use Rattle.std.specs.Prelude.{◌≡◌, IfOk, Ok, codes};
ghost use Rattle.bson_model.specs.Tree.{get};
ghost use Rattle.bson_values.specs.View.{datum_of};
ghost use Rattle.command_model.specs.Reading.{unless_faulty};
ghost use Rattle.pipeline_model.specs.Stages.{read_pipeline};
ghost use Rattle.command_fields.specs.Verdicts.{ReadsBy, verdict_view};
ghost use Rattle.command_fields.specs.Words.{array_needed, pipeline_view, pipeline_read, told};

use crate::fault::CheckFault;
use crate::words::held;
use bson_values::{Array, Document, Memory, Value};
use cluster_base::Code;
use pipeline_lang::Pipeline;
use std::alloc::Global;

/// A pipeline that was read, or the error that its field returns.
pub type PipelineWord = Result<Pipeline, Code>;

fn read_stages(alloc: Global, array: &Array) -> Result<Pipeline, CheckFault>
    ensures { ReadsBy (λ pipeline. read_pipeline array.now ≡ Ok pipeline) result (unless_faulty (read_pipeline array.now)) }
{
    let pipeline = Pipeline::parse(alloc, array)?;
    Ok(pipeline)
}

/// Reads the pipeline in an aggregate's document; it is empty where none is given. Returns `Memory` if memory runs out.
pub fn pipeline_in(alloc: Global, document: &Document) -> Result<PipelineWord, Memory>
    ensures { IfOk result (λ word. pipeline_view word ≡ pipeline_read (get (codes "pipeline") document.now)) }
{
    match document.get("pipeline") {
        Some(value) => match value {
            Value::Array(array) => held(read_stages(alloc, array)),
            _ => Ok(Ok(Pipeline::of(Vec::new(alloc)))),
        },
        None => Ok(Ok(Pipeline::of(Vec::new(alloc)))),
    }
}

/// Returns the result of the pipeline's rule for a value, given the first one as it was read: its error, or `TypeMismatch` for a value that is not an array.
pub fn pipeline_told(word: &PipelineWord, value: &Value) -> Option<Code>
    ensures { verdict_view result ≡ array_needed (told (pipeline_view word.now)) (datum_of value.now) }
{
    match value {
        Value::Array(_) => match word {
            Ok(_) => None,
            Err(code) => Some(*code),
        },
        _ => Some(Code::TypeMismatch),
    }
}
