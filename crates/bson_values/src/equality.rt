//! Comparison of documents, arrays and values as data.

ghost use Rattle.std.specs.Prelude.{◌≡◌, ◌↔◌, IsTrue};
ghost use Rattle.bson_model.specs.Tree.{binary_value, object_id_value, string_value, value_depth};
ghost use Rattle.bson_values.specs.View.{datum_of};

use crate::value::{Array, Document, Field, Value};

impl Document {
    /// Returns whether both are the same data: the same fields in the same order, each with the same name, type and value. An int32 and an int64 are
    /// different data.
    #[cycle(equality)]
    pub fn same_data(&self, other: &Document) -> bool
        ensures { IsTrue result ↔ (self.now ≡ other.now) }
    {
        let mut others = other.fields.iter();
        for field in &self.fields {
            let Some(other) = others.next() else {
                return false;
            };
            if !field.same_data(other) {
                return false;
            }
        }
        others.next().is_none()
    }
}

impl Array {
    /// Returns whether both are the same data: the same values in the same order.
    #[cycle(equality)]
    pub fn same_data(&self, other: &Array) -> bool
        ensures { IsTrue result ↔ (self.now ≡ other.now) }
    {
        let mut others = other.values.iter();
        for value in &self.values {
            let Some(other) = others.next() else {
                return false;
            };
            if !value.same_data(other) {
                return false;
            }
        }
        others.next().is_none()
    }
}

impl Field {
    // Returns whether both have the same name, and their values are the same data.
    #[cycle(equality)]
    fn same_data(&self, other: &Field) -> bool
        ensures { IsTrue result ↔ ((self.now.name ≡ other.now.name) × (datum_of self.now.value ≡ datum_of other.now.value)) }
    {
        self.name.as_str() == other.name.as_str() && self.value.same_data(&other.value)
    }
}

impl Value {
    /// Returns whether both are the same data: of the same type, and with the same content.
    #[cycle(equality)]
    pub fn same_data(&self, other: &Value) -> bool
        ensures { IsTrue result ↔ (datum_of self.now ≡ datum_of other.now) }
    {
        match self {
            Value::Doc(a) => match other {
                Value::Doc(b) => a.same_data(b),
                _ => false,
            },
            Value::Array(a) => match other {
                Value::Array(b) => a.same_data(b),
                _ => false,
            },
            _ => self.same_scalar(other),
        }
    }

    // The same, for a value without nested values.
    #[tactic(auto, using(crate::proofs::Depth::document_depth_some, crate::proofs::Depth::array_depth_some))]
    fn same_scalar(&self, other: &Value) -> bool
        requires { value_depth (datum_of self.now) ≡ 0 }
        ensures { IsTrue result ↔ (datum_of self.now ≡ datum_of other.now) }
    {
        match self {
            Value::Text(a) => other.is_text(a.as_str()),
            Value::Doc(_) | Value::Array(_) => false,
            Value::Binary { subtype, bytes } => other.is_binary(*subtype, bytes.as_slice()),
            Value::ObjectId(a) => other.is_object_id(&a.content),
            Value::Bool(a) => matches!(other, Value::Bool(b) if a.content == b.content),
            Value::Date(a) => matches!(other, Value::Date(b) if a == b),
            Value::Null => matches!(other, Value::Null),
            Value::Int32(a) => matches!(other, Value::Int32(b) if a.content == b.content),
            Value::Timestamp(a) => matches!(other, Value::Timestamp(b) if a == b),
            Value::Int64(a) => matches!(other, Value::Int64(b) if a == b),
            Value::MinKey => matches!(other, Value::MinKey),
            Value::MaxKey => matches!(other, Value::MaxKey),
        }
    }

    // Whether the value is that string.
    fn is_text(&self, text: &str) -> bool
        ensures { IsTrue result ↔ (datum_of self.now ≡ string_value text.now) }
    {
        match self {
            Value::Text(own) => own.as_str() == text,
            _ => false,
        }
    }

    // Whether the value is that ObjectId.
    fn is_object_id(&self, id: &[u8; 12]) -> bool
        ensures { IsTrue result ↔ (datum_of self.now ≡ object_id_value id.now) }
    {
        match self {
            Value::ObjectId(own) => own.content == *id,
            _ => false,
        }
    }

    // Whether the value is the binary of that subtype and those bytes.
    fn is_binary(&self, subtype: u8, bytes: &[u8]) -> bool
        ensures { IsTrue result ↔ (datum_of self.now ≡ binary_value subtype bytes.now) }
    {
        match self {
            Value::Binary {
                subtype: own,
                bytes: content,
            } => *own == subtype && content.as_slice() == bytes,
            _ => false,
        }
    }
}
