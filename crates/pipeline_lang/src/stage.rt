//! Stages, and pipelines of them.

ghost use Rattle.std.specs.Prelude.{◌≡◌, IfErr, IfOk, Ok, map};
ghost use Rattle.field_paths.specs.ReadFaults.{Fails};
ghost use Rattle.pipeline_model.specs.Stages.{read_pipeline};
ghost use Rattle.pipeline_lang.specs.View.{stage_of};

use crate::parser::parse_pipeline;
use bson_values::{Array, Memory, Name};
use field_paths::ParseFault;
use group_accum::GroupSpec;
use match_expr::Expr;
use projection::Projection;
use sort_keys::SortSpec;
use std::alloc::Global;
use std::marker::Model;
use std::sync::Arc;

/// A stage (MongoDB manual, "Aggregation Pipeline Stages"). Its operand is shared, so that a part of a pipeline copies none of it.
#[derive(Drop)]
pub enum Stage {
    /// The documents that match the filter.
    Match(Arc<Expr, Global>),
    /// The projection of each document.
    Project(Arc<Projection, Global>),
    /// A document of each group.
    Group(Arc<GroupSpec, Global>),
    /// The documents in order.
    Sort(Arc<SortSpec, Global>),
    /// All documents but the first ones, this many.
    Skip(u64),
    /// The first documents, this many.
    Limit(u64),
    /// One document, with the number of documents under this name.
    Count(Name),
}

/// Stages, one after the other, seen as a list.
#[derive(Drop)]
pub struct Pipeline {
    pub(crate) stages: Vec<Stage>,
}

impl Model for Pipeline {
    ghost use Rattle.std.specs.Prelude.{List, map};
    ghost use Rattle.pipeline_model.specs.Stages as model;
    ghost use Rattle.pipeline_lang.specs.Code.{stages_code};
    ghost use Rattle.pipeline_lang.specs.View.{stage_of};

    ghost Value = { List model.Stage };

    ghost coded = { stages_code };

    ghost view = { λ p. map stage_of p.stages.items };
}

impl Stage {
    /// Returns the same stage, whose operand is shared. Returns `Memory` if memory runs out.
    pub fn share(&self) -> Result<Stage, Memory>
        ensures { IfOk result (λ s. stage_of s ≡ stage_of self.now) }
    {
        match self {
            Stage::Match(asked) => Ok(Stage::Match(Arc::try_clone(asked)?)),
            Stage::Project(rules) => Ok(Stage::Project(Arc::try_clone(rules)?)),
            Stage::Group(spec) => Ok(Stage::Group(Arc::try_clone(spec)?)),
            Stage::Sort(spec) => Ok(Stage::Sort(Arc::try_clone(spec)?)),
            Stage::Skip(number) => Ok(Stage::Skip(*number)),
            Stage::Limit(number) => Ok(Stage::Limit(*number)),
            Stage::Count(name) => Ok(Stage::Count(name.copy()?)),
        }
    }
}

impl Pipeline {
    /// Returns the pipeline of these stages.
    pub fn of(stages: Vec<Stage>) -> Pipeline
        ensures { result ≡ map stage_of stages.items }
    {
        Pipeline { stages }
    }

    /// Returns its stages.
    pub fn stages(&self) -> &[Stage]
        ensures { map stage_of result.now ≡ self.now }
    {
        self.stages.as_slice()
    }

    /// Returns the pipeline that an array is. Where it is none, returns `BadOperand` if it has more than 1,000 stages, else the first fault of the stages in
    /// order (`BadOperand`, `UnknownOperator`, or the fault of its operand as the filter, the projection, the specification of groups or of a sort has it).
    /// Returns `Memory` if memory runs out.
    pub fn parse(alloc: Global, array: &Array) -> Result<Pipeline, ParseFault>
        // A pipeline is what the definitions read from the array.
        ensures pipeline { IfOk result (λ p. read_pipeline array.now ≡ Ok p) }
        // A fault is the first, unless memory runs out.
        ensures fault { IfErr result (λ e. Fails e (read_pipeline array.now)) }
    {
        parse_pipeline(alloc, array)
    }
}
