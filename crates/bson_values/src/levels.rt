//! How deeply documents and arrays are nested.

ghost use Rattle.std.specs.Prelude.{◌≡◌, ◌-◌, ◌^◌, min};
ghost use Rattle.bson_model.specs.Tree.{array_depth, document_depth, value_depth};
ghost use Rattle.bson_values.specs.View.{datum_of};

use crate::value::{Array, Document, Value};

impl Document {
    /// Returns the number of levels of the document, which is itself the first, or the greatest `usize` where that is more (MongoDB manual, "MongoDB Limits
    /// and Thresholds", nested depth).
    #[cycle(levels)]
    pub fn levels(&self) -> usize
        ensures { result ≡ min (document_depth self.now) (2 ^ 64 - 1) }
    {
        let mut levels: usize = 1;
        for field in &self.fields {
            levels = levels.max(field.value.levels().saturating_add(1));
        }
        levels
    }
}

impl Array {
    /// Returns the number of levels of the array, which is itself the first, or the greatest `usize` where that is more.
    #[cycle(levels)]
    fn levels(&self) -> usize
        ensures { result ≡ min (array_depth self.now) (2 ^ 64 - 1) }
    {
        let mut levels: usize = 1;
        for value in &self.values {
            levels = levels.max(value.levels().saturating_add(1));
        }
        levels
    }
}

impl Value {
    /// Returns the number of levels nested in the value, or the greatest `usize` where that is more; 0 for a value without nested values.
    #[cycle(levels)]
    fn levels(&self) -> usize
        ensures { result ≡ min (value_depth (datum_of self.now)) (2 ^ 64 - 1) }
    {
        match self {
            Value::Doc(document) => document.levels(),
            Value::Array(array) => array.levels(),
            Value::Text(_)
            | Value::Binary { .. }
            | Value::ObjectId(_)
            | Value::Bool(_)
            | Value::Date(_)
            | Value::Null
            | Value::Int32(_)
            | Value::Timestamp(_)
            | Value::Int64(_)
            | Value::MinKey
            | Value::MaxKey => 0,
        }
    }
}
