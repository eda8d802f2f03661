//! Reading documents as changes. Operators are read from left to right, and of each field first its name, then its operand; that paths are apart is checked
//! last.

ghost use Rattle.std.specs.Prelude.{◌≡◌, Ok, OnOk, IfErr, IfOk};
ghost use Rattle.std.specs.List.{AllByRecursion};
ghost use Rattle.std.specs.Result.{result_map_both};
ghost use Rattle.bson_model.specs.Grammar.{HasNoZero};
ghost use Rattle.bson_values.specs.View.{datum_of};
ghost use Rattle.query_model.specs.Changes.{read_change, read_edits, read_operators};
ghost use Rattle.query_model.specs.Paths.{read_path};
ghost use Rattle.query_model.specs.Queries.{path_fault};
ghost use Rattle.field_paths.specs.ReadFaults.{Fails, Gives};
ghost use Rattle.update_ops.specs.Reads.{behind, read_operator, read_path_edit};
ghost use Rattle.update_ops.specs.View.{change_of, edits_of, operator_of, path_edit_of};

use crate::change::{PathEdit, Update};
use crate::operators;
use crate::operators::Operator;
use crate::order::in_order;
use bson_values::{Document, Memory, Name, Value};
use field_paths::{ParseFault, Path, parse_path};
use std::alloc::Global;

impl Update {
    /// Returns the change that a document is: a replacement where no outermost name begins with `$`, else edits in the order of their paths. Returns the
    /// first fault where it is none: of the operators from left to right, of each its name (`UnknownOperator`), that its operand is a document
    /// (`BadOperand`), and then of each field in it its name (`Path`) and its operand (`BadOperand`); last that a path occurs twice or is a prefix of another
    /// (`BadOperand`). Returns `Memory` if memory runs out.
    pub fn parse(alloc: Global, document: &Document) -> Result<Update, ParseFault>
        // A change is what the definitions read from the document.
        ensures change { IfOk result (λ u. read_change document.now ≡ Ok (change_of u)) }
        // A fault is the first, unless memory runs out.
        ensures fault { IfErr result (λ e. Fails e (read_change document.now)) }
    {
        if operators::has_operator(document) {
            let edits = parse_operators(alloc, document)?;
            in_order(alloc, edits)
        } else {
            Ok(Update::Replacement(document.copy()?))
        }
    }
}

// Returns the names of a path's fields, or `Memory` if memory runs out.
#[tactic(auto, using(crate::proofs::Parts::part_no_zero))]
fn names_of(alloc: Global, path: &Path) -> Result<Vec<Name>, Memory>
    requires { AllByRecursion (λ part. HasNoZero part) path.now }
    ensures { IfOk result (λ names. names.items ≡ path.now) }
{
    let mut names = Vec::new(alloc);
    for part in path.parts() {
        names.push(Name::of(alloc, part.as_str())?)?;
    }
    Ok(names)
}

// Returns the names of the fields of the path that a name is.
#[tactic(auto, using(crate::proofs::Parts::read_no_zero))]
fn parse_names(alloc: Global, name: &Name) -> Result<Vec<Name>, ParseFault>
    ensures gives { Gives (λ p. p.items) result (result_map_both (λ path. path) path_fault (read_path name.now)) }
{
    let path = parse_path(alloc, name.as_str())?;
    Ok(names_of(alloc, &path)?)
}

// Reads one field of an operator's document.
fn parse_path_edit(
    alloc: Global,
    operator: Operator,
    name: &Name,
    value: &Value,
) -> Result<PathEdit, ParseFault>
    ensures gives { Gives path_edit_of result (read_path_edit (operator_of operator) name.now (datum_of value.now)) }
{
    let path = parse_names(alloc, name)?;
    let edit = operators::parse_edit(operator, value)?;
    Ok(PathEdit { path, edit })
}

// Appends the edits of one operator.
fn push_edits(
    alloc: Global,
    operator: Operator,
    document: &Document,
    edits: &mut Vec<PathEdit>,
) -> Result<(), ParseFault>
    ensures ok { OnOk result (behind (edits_of edits.old.items) (read_edits (operator_of operator) document.now) ≡ Ok (edits_of edits.new.items)) }
    ensures err { IfErr result (λ e. Fails e (read_edits (operator_of operator) document.now)) }
{
    for field in document.fields() {
        let edit = parse_path_edit(alloc, operator, &field.name, &field.value)?;
        edits.push(edit)?;
    }
    Ok(())
}

// Appends the edits of one field of a change.
fn push_operator(
    alloc: Global,
    name: &Name,
    value: &Value,
    edits: &mut Vec<PathEdit>,
) -> Result<(), ParseFault>
    ensures ok { OnOk result (behind (edits_of edits.old.items) (read_operator name.now (datum_of value.now)) ≡ Ok (edits_of edits.new.items)) }
    ensures err { IfErr result (λ e. Fails e (read_operator name.now (datum_of value.now))) }
{
    let Some(operator) = operators::operator_named(name.as_str()) else {
        return Err(ParseFault::UnknownOperator);
    };
    let Some(document) = operators::as_document(value) else {
        return Err(ParseFault::BadOperand);
    };
    push_edits(alloc, operator, document, edits)
}

// Reads the edits of all operators, in the document's order.
fn parse_operators(alloc: Global, document: &Document) -> Result<Vec<PathEdit>, ParseFault>
    ensures gives { Gives (λ es. edits_of es.items) result (read_operators document.now) }
{
    let mut edits = Vec::new(alloc);
    for field in document.fields() {
        push_operator(alloc, &field.name, &field.value, &mut edits)?;
    }
    Ok(edits)
}
