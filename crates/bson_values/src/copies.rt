//! Copies of documents, arrays and values.

ghost use Rattle.std.specs.Prelude.{◌≡◌, IfOk};
ghost use Rattle.bson_model.specs.Tree.{binary_value, string_value};
ghost use Rattle.bson_values.specs.View.{datum_of};

use crate::text::{Blob, Memory, Text};
use crate::value::{Array, Document, Field, Value};

impl Document {
    /// Returns a copy of the document, or `Memory` if memory runs out.
    #[cycle(copy)]
    pub fn copy(&self) -> Result<Document, Memory>
        ensures { IfOk result (λ d. d ≡ self.now) }
    {
        let mut copy = Document::with_room(*self.fields.allocator(), self.fields.len())?;
        for field in &self.fields {
            let field = field.copy()?;
            copy.push(field.name, field.value)?;
        }
        Ok(copy)
    }
}

impl Array {
    /// Returns a copy of the array, or `Memory` if memory runs out.
    #[cycle(copy)]
    pub fn copy(&self) -> Result<Array, Memory>
        ensures { IfOk result (λ a. a ≡ self.now) }
    {
        let mut copy = Array::with_room(*self.values.allocator(), self.values.len())?;
        for value in &self.values {
            let value = value.copy()?;
            copy.push(value)?;
        }
        Ok(copy)
    }
}

impl Field {
    // Returns a copy of the field, or `Memory` if memory runs out.
    #[cycle(copy)]
    fn copy(&self) -> Result<Field, Memory>
        ensures { IfOk result (λ m. (m.name ≡ self.now.name) × (datum_of m.value ≡ datum_of self.now.value)) }
    {
        let name = self.name.copy()?;
        let value = self.value.copy()?;
        Ok(Field { name, value })
    }
}

fn copy_text(text: &Text) -> Result<Value, Memory>
    ensures { IfOk result (λ v. datum_of v ≡ string_value text.now) }
{
    let text = text.copy()?;
    Ok(Value::Text(text))
}

fn copy_binary(subtype: u8, bytes: &Blob) -> Result<Value, Memory>
    ensures { IfOk result (λ v. datum_of v ≡ binary_value subtype bytes.now) }
{
    let bytes = bytes.copy()?;
    Ok(Value::Binary { subtype, bytes })
}

impl Value {
    /// Returns a copy of the value, or `Memory` if memory runs out.
    #[cycle(copy)]
    pub fn copy(&self) -> Result<Value, Memory>
        ensures { IfOk result (λ v. datum_of v ≡ datum_of self.now) }
    {
        match self {
            Value::Text(text) => copy_text(text),
            Value::Doc(document) => Ok(Value::Doc(document.copy()?)),
            Value::Array(array) => Ok(Value::Array(array.copy()?)),
            Value::Binary { subtype, bytes } => copy_binary(*subtype, bytes),
            Value::ObjectId(bytes) => Ok(Value::ObjectId(*bytes)),
            Value::Bool(b) => Ok(Value::Bool(*b)),
            Value::Date(n) => Ok(Value::Date(*n)),
            Value::Null => Ok(Value::Null),
            Value::Int32(n) => Ok(Value::Int32(*n)),
            Value::Timestamp(n) => Ok(Value::Timestamp(*n)),
            Value::Int64(n) => Ok(Value::Int64(*n)),
            Value::MinKey => Ok(Value::MinKey),
            Value::MaxKey => Ok(Value::MaxKey),
        }
    }
}
