//! Documents that are built from values.

ghost use Rattle.std.specs.Prelude.{◌≡◌, ◌≤◌, IfOk};
ghost use Rattle.bson_values.specs.Tree.{document_depth, value_depth};
ghost use Rattle.bson_values.specs.View.{datum_of};

use bson_values::{Aligned, Array, Blob, Document, Memory, Name, Text, Value, is_name, write};
use fixtures::{RowFault, Rows, bytes_of, field, number};
use std::alloc::Global;

/// `TYPE | CONTENT | BYTES`: the bytes of the document whose only field is `a`, with a value of that type and content. In a document and in an array the
/// content is an int32, which occurs twice.
#[derive(Drop)]
pub struct Built;

impl Rows for Built {
    fn holds(&mut self, alloc: Global, row: &str) -> Result<bool, RowFault> {
        let (type_name, rest) = field(row);
        let (content, wanted) = field(rest);
        let value = value_of(alloc, type_name, content)?;
        let document = holding(alloc, value)?;
        let wanted = bytes_of(alloc, wanted)?;
        is_spelled(alloc, &document, &wanted)
    }
}

fn holding(alloc: Global, value: Value) -> Result<Document, Memory>
    requires { value_depth (datum_of value) ≤ 1 }
    ensures { IfOk result (λ d. document_depth d ≤ 3) }
{
    let mut document = Document::new(alloc);
    let name = Name::of(alloc, "a")?.copy()?;
    document.push(name, value)?;
    Ok(document)
}

fn is_spelled(alloc: Global, document: &Document, wanted: &[u8]) -> Result<bool, RowFault>
    requires { document_depth document.now ≤ 3 }
{
    let mut out = Vec::new(alloc);
    if document.size() <= 200_000_000 {
        write(document, &mut out)?;
    }
    let is_found = document.get("a").is_some() && document.get("A").is_none();
    let is_name = is_name("a") && !is_name("a\0b");
    Ok(
        out.as_slice() == wanted
            && document.len() == 1
            && !document.is_empty()
            && is_found
            && is_name,
    )
}

fn value_of(alloc: Global, type_name: &str, content: &str) -> Result<Value, RowFault>
    ensures { IfOk result (λ v. value_depth (datum_of v) ≤ 1) }
{
    match type_name {
        "document" => document(alloc, content),
        "array" => array(alloc, content),
        _ => scalar(alloc, type_name, content),
    }
}

fn document(alloc: Global, content: &str) -> Result<Value, RowFault>
    ensures { IfOk result (λ v. value_depth (datum_of v) ≤ 1) }
{
    let n = number(content)?;
    let mut inner = Document::new(alloc);
    inner.push(Name::of(alloc, "b")?, Value::Int32(Aligned::of(n)))?;
    inner.push(Name::of(alloc, "c")?, Value::Int32(Aligned::of(n)))?;
    Ok(Value::Doc(inner))
}

fn array(alloc: Global, content: &str) -> Result<Value, RowFault>
    ensures { IfOk result (λ v. value_depth (datum_of v) ≤ 1) }
{
    let n = number(content)?;
    let mut inner = Array::new(alloc);
    inner.push(Value::Int32(Aligned::of(n)))?;
    inner.push(Value::Int32(Aligned::of(n)))?;
    if inner.len() != 2 || inner.is_empty() {
        return Err(RowFault::Form);
    }
    Ok(Value::Array(inner))
}

fn scalar(alloc: Global, type_name: &str, content: &str) -> Result<Value, RowFault>
    ensures { IfOk result (λ v. value_depth (datum_of v) ≡ 0) }
{
    match type_name {
        "string" => string(alloc, content),
        "binary" => binary(alloc, content),
        "object_id" => object_id(alloc, content),
        "bool" => Ok(Value::Bool(Aligned::of(content == "true"))),
        "null" => Ok(Value::Null),
        "min_key" => Ok(Value::MinKey),
        "max_key" => Ok(Value::MaxKey),
        _ => integer(type_name, content),
    }
}

fn integer(type_name: &str, content: &str) -> Result<Value, RowFault>
    ensures { IfOk result (λ v. value_depth (datum_of v) ≡ 0) }
{
    if type_name == "timestamp" {
        let n = number(content)?;
        return Ok(Value::Timestamp(n));
    }
    let n: i64 = number(content)?;
    match type_name {
        "date" => Ok(Value::Date(n)),
        "int64" => Ok(Value::Int64(n)),
        "int32" => int32(n),
        _ => Err(RowFault::Form),
    }
}

fn int32(n: i64) -> Result<Value, RowFault>
    ensures { IfOk result (λ v. value_depth (datum_of v) ≡ 0) }
{
    match i32::try_from(n) {
        Ok(n) => Ok(Value::Int32(Aligned::of(n))),
        Err(_) => Err(RowFault::Form),
    }
}

fn string(alloc: Global, content: &str) -> Result<Value, RowFault>
    ensures { IfOk result (λ v. value_depth (datum_of v) ≡ 0) }
{
    let string = Text::of(alloc, content)?.copy()?;
    Ok(Value::Text(string))
}

// A binary, whose subtype is its first byte.
fn binary(alloc: Global, content: &str) -> Result<Value, RowFault>
    ensures { IfOk result (λ v. value_depth (datum_of v) ≡ 0) }
{
    let bytes = bytes_of(alloc, content)?;
    let [subtype, content @ ..] = bytes.as_slice() else {
        return Err(RowFault::Form);
    };
    let subtype = *subtype;
    let bytes = Blob::of(alloc, content)?.copy()?;
    Ok(Value::Binary { subtype, bytes })
}

fn object_id(alloc: Global, content: &str) -> Result<Value, RowFault>
    ensures { IfOk result (λ v. value_depth (datum_of v) ≡ 0) }
{
    let bytes = bytes_of(alloc, content)?;
    if bytes.len() != 12 {
        return Err(RowFault::Form);
    }
    let mut id = [0; 12];
    id.copy_from_slice(&bytes);
    Ok(Value::ObjectId(Aligned::of(id)))
}
