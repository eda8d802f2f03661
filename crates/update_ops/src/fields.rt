//! Documents with one field set or removed. All other fields are copied once.

ghost use Rattle.std.specs.Prelude.{◌≡◌, IfOk, OnOk};
ghost use Rattle.std.specs.Str.{bytes_eq};
ghost use Rattle.bson_model.specs.Tree.{Datum, field, joined};
ghost use Rattle.bson_values.specs.View.{datum_of, fields_of};
ghost use Rattle.query_model.specs.Edits.{with_field, without_field};

use bson_values::{Document, Field, Memory, Name, Value};
use std::alloc::Global;

/// Appends copies of fields to a document. Returns `Memory` if memory runs out.
pub fn copy_fields(fields: &[Field], document: &mut Document) -> Result<(), Memory>
    ensures { OnOk result (document.new ≡ joined document.old (fields_of fields.now)) }
{
    for field in fields {
        let name = field.name.copy()?;
        let value = field.value.copy()?;
        document.push(name, value)?;
    }
    Ok(())
}

// Returns whether a field has that name.
fn is_named(field: &Field, name: &Name) -> bool
    ensures { result ≡ bytes_eq field.now.name name.now }
{
    field.name.as_str() == name.as_str()
}

// Returns the fields before the first of that name, and those after it; all, and none, where there is no such field.
fn around<'a>(name: &Name, fields: &'a [Field]) -> (&'a [Field], &'a [Field])
    ensures put { (d : Datum) → with_field name.now d (fields_of fields.now) ≡ joined (fields_of result.0.now) (field name.now d (fields_of result.1.now)) }
    ensures taken { without_field name.now (fields_of fields.now) ≡ joined (fields_of result.0.now) (fields_of result.1.now) }
{
    for (i, field) in fields.iter().enumerate() {
        if is_named(field, name) {
            return (&fields[..i], &fields[i + 1..]);
        }
    }
    (fields, &fields[fields.len()..])
}

/// Returns the document with the value in its first field of that name, or else in a new last one. Returns `Memory` if memory runs out.
#[tactic(auto, using(crate::proofs::Around::put_between))]
pub fn with_field(
    alloc: Global,
    name: &Name,
    value: Value,
    document: &Document,
) -> Result<Document, Memory>
    ensures { IfOk result (λ d. d ≡ with_field name.now (datum_of value) document.now) }
{
    let (front, behind) = around(name, document.fields());
    let mut changed = Document::new(alloc);
    copy_fields(front, &mut changed)?;
    changed.push(name.copy()?, value)?;
    copy_fields(behind, &mut changed)?;
    Ok(changed)
}

/// Returns the document without its first field of that name, or `Memory` if memory runs out.
pub fn without_field(alloc: Global, name: &Name, document: &Document) -> Result<Document, Memory>
    ensures { IfOk result (λ d. d ≡ without_field name.now document.now) }
{
    let (front, behind) = around(name, document.fields());
    let mut changed = Document::new(alloc);
    copy_fields(front, &mut changed)?;
    copy_fields(behind, &mut changed)?;
    Ok(changed)
}
