//! What is read from a collection: the stages of a pipeline, at which time, and in which batches.

ghost use Rattle.std.specs.Prelude.{◌≡◌, codes};
ghost use Rattle.bson_model.specs.Tree.{get};
ghost use Rattle.command_model.specs.Reading.{time_given};
ghost use Rattle.command_words.specs.Commands.{reading_view};

use bson_values::Document;
use cluster_base::{Namespace, Time};
use command_fields::time_given;
use pipeline_lang::Pipeline;

/// To read the result of a pipeline on a collection: at the time `at`, where it is named, else at one that is not before `after`.
#[derive(Drop)]
pub struct Reading {
    pub namespace: Namespace,
    pub pipeline: Pipeline,
    pub at: Option<Time>,
    pub after: Option<Time>,
}

/// The greatest size of the first batch, where one is given; `single`: no other batch is requested.
#[derive(Clone, Copy, Debug, PartialEq, Eq)]
pub struct Batches {
    pub size: Option<u64>,
    pub single: bool,
}

/// Returns the reading of a command with that document.
pub(crate) fn reading_of(namespace: Namespace, pipeline: Pipeline, document: &Document) -> Reading
    ensures { reading_view result ≡ record {
      namespace = namespace;
      stages = pipeline;
      at = time_given (codes "atClusterTime") (get (codes "readConcern") document.now);
      after = time_given (codes "afterClusterTime") (get (codes "readConcern") document.now);
    } }
{
    Reading {
        namespace,
        pipeline,
        at: time_given(document, "atClusterTime"),
        after: time_given(document, "afterClusterTime"),
    }
}
