//! Specifications of sorts.

ghost use Rattle.std.specs.Prelude.{◌≡◌, IfErr, IfOk, Ok};
ghost use Rattle.bson_values.specs.View.{datum_of};
ghost use Rattle.field_paths.specs.ReadFaults.{Fails, Gives};
ghost use Rattle.pipeline_model.specs.SortKeys.{read_direction, read_sort, read_sort_fields};
ghost use Rattle.sort_keys.specs.FieldReading.{read_sort_field};
ghost use Rattle.sort_keys.specs.View.{direction_of, field_of, sort_fields_of};

use bson_values::{Document, Field, Value};
use field_paths::{ParseFault, Path, parse_path};
use std::alloc::Global;
use std::marker::Model;

/// The greatest number of fields of a specification.
pub const MOST_FIELDS: usize = 32;

/// The direction of a sort.
#[derive(Clone, Copy, PartialEq, Eq)]
pub enum Direction {
    Ascending,
    Descending,
}

/// A path to sort by, and its direction.
#[derive(Drop)]
pub struct SortField {
    pub path: Path,
    pub direction: Direction,
}

/// What documents are sorted by, seen as paths with their directions, in order of precedence.
#[derive(Drop)]
pub struct SortSpec {
    pub(crate) fields: Vec<SortField>,
}

impl Model for SortSpec {
    ghost use Rattle.std.specs.Prelude.{List};
    ghost use Rattle.pipeline_model.specs.SortKeys as model;
    ghost use Rattle.sort_keys.specs.Code.{spec_code};
    ghost use Rattle.sort_keys.specs.View.{sort_fields_of};

    ghost Value = { List model.SortField };

    ghost coded = { spec_code };

    ghost view = { λ s. sort_fields_of s.fields.items };
}

// Returns the direction that a value is: ascending for the whole number 1, descending for -1.
fn parse_direction(value: &Value) -> Result<Direction, ParseFault>
    ensures gives { Gives direction_of result (read_direction (datum_of value.now)) }
{
    let number = match value {
        Value::Int32(n) => i64::from(n.content),
        Value::Int64(n) => *n,
        _ => return Err(ParseFault::BadOperand),
    };
    match number {
        1 => Ok(Direction::Ascending),
        -1 => Ok(Direction::Descending),
        _ => Err(ParseFault::BadOperand),
    }
}

// Returns the path and direction that a field is.
fn parse_field(alloc: Global, field: &Field) -> Result<SortField, ParseFault>
    ensures gives { Gives field_of result (read_sort_field field.now.name (datum_of field.now.value)) }
{
    let path = parse_path(alloc, field.name.as_str())?;
    let direction = parse_direction(&field.value)?;
    Ok(SortField { path, direction })
}

// Returns the paths and directions that the fields of a document are.
fn parse_fields(alloc: Global, document: &Document) -> Result<Vec<SortField>, ParseFault>
    ensures gives { Gives (λ fields. sort_fields_of fields.items) result (read_sort_fields document.now) }
{
    let mut fields = Vec::new(alloc);
    for field in document.fields() {
        let parsed = parse_field(alloc, field)?;
        fields.push(parsed)?;
    }
    Ok(fields)
}

impl SortSpec {
    /// Returns the specification that a document is. Where it is none, returns `BadOperand` if it has more than 32 fields, else the first fault of the fields
    /// in order, of each first its path (`Path`) and then its direction (`BadOperand`). Returns `Memory` if memory runs out.
    #[tactic(auto, using(crate::proofs::FieldsRead::too_many, crate::proofs::FieldsRead::few_enough))]
    pub fn parse(alloc: Global, document: &Document) -> Result<SortSpec, ParseFault>
        // A specification is what the definitions read from the document.
        ensures spec { IfOk result (λ s. read_sort document.now ≡ Ok s) }
        // A fault is the first, unless memory runs out.
        ensures fault { IfErr result (λ e. Fails e (read_sort document.now)) }
    {
        if document.len() > MOST_FIELDS {
            return Err(ParseFault::BadOperand);
        }
        let fields = parse_fields(alloc, document)?;
        Ok(SortSpec { fields })
    }
}
