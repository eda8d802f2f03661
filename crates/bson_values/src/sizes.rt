//! The lengths of the encodings of documents, arrays and values.

ghost use Rattle.std.specs.Prelude.{◌≡◌, ◌-◌, ◌^◌, min, length};
ghost use Rattle.bson_model.specs.Spelling.{framed, written, written_value, written_items};
ghost use Rattle.bson_values.specs.View.{datum_of};

use crate::value::{Array, Document, Value};
use itoa::Buffer;

/// The bytes of a document in addition to its elements: four for its length, and the last 00.
const FRAME: usize = 5;

impl Document {
    /// Returns the number of bytes of the document's encoding, or the greatest `usize` where that is more.
    #[cycle(size)]
    pub fn size(&self) -> usize
        ensures { result ≡ min (length (written self.now)) (2 ^ 64 - 1) }
    {
        let mut size = FRAME;
        for field in &self.fields {
            let head = field.name.as_str().len() + 2;
            size = size.saturating_add(head).saturating_add(field.value.size());
        }
        size
    }
}

impl Array {
    /// Returns the number of bytes of the array's encoding, or the greatest `usize` where that is more.
    #[cycle(size)]
    fn size(&self) -> usize
        ensures { result ≡ min (length (framed (written_items 0 self.now))) (2 ^ 64 - 1) }
    {
        let mut offset = Buffer::new();
        let mut size = FRAME;
        for (i, value) in self.values.iter().enumerate() {
            let head = offset.format(i).len() + 2;
            size = size.saturating_add(head).saturating_add(value.size());
        }
        size
    }
}

impl Value {
    /// Returns the number of bytes of the value, without its type and its name, or the greatest `usize` where that is more.
    #[cycle(size)]
    pub fn size(&self) -> usize
        ensures { result ≡ min (length (written_value (datum_of self.now))) (2 ^ 64 - 1) }
    {
        match self {
            Value::Text(text) => text.as_str().len() + 5,
            Value::Doc(document) => document.size(),
            Value::Array(array) => array.size(),
            Value::Binary { subtype: _, bytes } => bytes.as_slice().len() + 5,
            Value::ObjectId(bytes) => bytes.content.as_slice().len(),
            Value::Bool(_) => 1,
            Value::Int32(_) => 4,
            Value::Date(_) | Value::Timestamp(_) | Value::Int64(_) => 8,
            Value::Null | Value::MinKey | Value::MaxKey => 0,
        }
    }
}
