//! What documents are grouped by, and what is accumulated for each group.

ghost use Rattle.std.specs.Prelude.{◌≡◌, IfErr, IfOk, Ok, map};
ghost use Rattle.field_paths.specs.ReadFaults.{Fails};
ghost use Rattle.pipeline_model.specs.GroupSpecs.{read_group};
ghost use Rattle.group_accum.specs.View.{group_field_of, operand_of};

use crate::parser::parse_group;
use bson_values::{Document, Name, Value};
use field_paths::{ParseFault, Path};
use std::alloc::Global;
use std::marker::Model;

/// Where a value comes from (MongoDB manual, "Aggregation Expressions").
#[derive(Drop)]
pub(crate) enum Operand {
    /// The value at a path.
    Path(Path),
    /// This value.
    Constant(Value),
}

/// Which of the values is accumulated.
#[derive(Clone, Copy)]
pub(crate) enum Extreme {
    Least,
    Greatest,
}

/// What is accumulated (MongoDB manual, "Accumulators").
#[derive(Drop)]
pub(crate) enum Accumulator {
    Sum(Operand),
    Count,
    Extreme { extreme: Extreme, operand: Operand },
}

/// A field of a group's document.
#[derive(Drop)]
pub(crate) struct GroupField {
    pub(crate) name: Name,
    pub(crate) accumulator: Accumulator,
}

/// What documents are grouped by, and what is accumulated for each group, seen as `pipeline_model` defines it.
#[derive(Drop)]
pub struct GroupSpec {
    pub(crate) key: Operand,
    pub(crate) fields: Vec<GroupField>,
}

impl Model for GroupSpec {
    ghost use Rattle.std.specs.Prelude.{map};
    ghost use Rattle.pipeline_model.specs.GroupSpecs as model;
    ghost use Rattle.group_accum.specs.Code.{group_code};
    ghost use Rattle.group_accum.specs.View.{group_field_of, operand_of};

    ghost Value = { model.GroupSpec };

    ghost coded = { group_code };

    ghost view = { λ s. record { key = operand_of s.key; fields = map group_field_of s.fields.items } };
}

impl GroupSpec {
    /// Returns the specification that a document is. Returns its first fault where it is none: of the fields in order, an operand's or an accumulator's
    /// (`UnknownOperator`, `BadOperand`, or `Path` for the path after a `$`); after them `BadOperand` where there is not exactly one `_id`. Returns `Memory`
    /// if memory runs out.
    pub fn parse(alloc: Global, document: &Document) -> Result<GroupSpec, ParseFault>
        // A specification is what the definitions read from the document.
        ensures spec { IfOk result (λ s. read_group document.now ≡ Ok s) }
        // A fault is the first, unless memory runs out.
        ensures fault { IfErr result (λ e. Fails e (read_group document.now)) }
    {
        parse_group(alloc, document)
    }

    // Returns what documents are grouped by.
    pub(crate) fn key(&self) -> &Operand
        ensures { operand_of result.now ≡ self.now.key }
    {
        &self.key
    }

    // Returns the fields of a group's document after its `_id`.
    pub(crate) fn fields(&self) -> &[GroupField]
        ensures { map group_field_of result.now ≡ self.now.fields }
    {
        self.fields.as_slice()
    }
}
