//! Values, and the documents and arrays that contain them.

ghost use Rattle.std.specs.Prelude.{◌≡◌, ◌≤◌, ◌==◌, length, All, IfOk, OnOk, OnErr};
ghost use Rattle.std.specs.Option.{option_map};
ghost use Rattle.bson_model.specs.Tree.{no_items, item, joined_items, no_fields, field, get, joined};
ghost use Rattle.bson_values.specs.Sizes.{datum_size, items_count, items_size, fields_count, fields_size};
ghost use Rattle.bson_values.specs.Sound.{IsDatum, AreItems, AreFields};
ghost use Rattle.bson_values.specs.View.{datum_of, items_of, fields_of};

use crate::text::{Blob, Memory, Name, Text};
use std::alloc::Global;
use std::marker::Model;

/// Content that needs no alignment, aligned to a word: so a value of any type is moved in whole words.
#[derive(Clone, Copy, Debug)]
pub struct Aligned<T> {
    /// The aligned content.
    pub content: T,
    words: [u64; 0],
}

impl<T> Aligned<T> {
    /// The content, aligned.
    pub fn of(content: T) -> Aligned<T>
        ensures { result.content ≡ content }
    {
        Aligned { content, words: [] }
    }
}

/// A value of one of the supported types (BSON 1.1, `element`).
#[cycle(value)]
#[derive(Drop)]
pub enum Value {
    /// A UTF-8 string, type 02.
    Text(Text),
    /// A document, type 03.
    Doc(Document),
    /// An array, type 04.
    Array(Array),
    /// Bytes and their subtype, type 05. The bytes come first, since they are aligned to a word.
    Binary { bytes: Blob, subtype: u8 },
    /// An ObjectId, type 07.
    ObjectId(Aligned<[u8; 12]>),
    /// A boolean, type 08.
    Bool(Aligned<bool>),
    /// A date, type 09, in milliseconds since 1970.
    Date(i64),
    /// Null, type 0A.
    Null,
    /// A 32-bit number, type 10.
    Int32(Aligned<i32>),
    /// A timestamp, type 11: seconds in the high 32 bits, a count in the low.
    Timestamp(u64),
    /// A 64-bit number, type 12.
    Int64(i64),
    /// The least value, type FF.
    MinKey,
    /// The greatest value, type 7F.
    MaxKey,
}

/// A field of a document.
#[cycle(value)]
#[derive(Drop)]
pub struct Field {
    pub name: Name,
    pub value: Value,
}

/// A document: fields in order, whose names may repeat.
#[cycle(value)]
#[derive(Drop)]
pub struct Document {
    pub(crate) fields: Vec<Field>,
}

/// An array: values in order.
#[cycle(value)]
#[derive(Drop)]
pub struct Array {
    pub(crate) values: Vec<Value>,
}

impl Model for Document {
    ghost use Rattle.bson_model.specs.Tree.{Fields};
    ghost use Rattle.bson_values.specs.Code.{fields_code};

    ghost Value = { Fields };

    ghost coded = { fields_code };

    ghost use Rattle.bson_values.specs.View.{fields_of};
    ghost use Rattle.bson_values.specs.Sound.{AreFields};
    ghost use Rattle.bson_values.specs.Sizes.{fields_size};

    ghost view = { λ d. fields_of d.fields.items };

    ghost invariant = { λ d. AreFields (fields_of d.fields.items) };

    ghost size = { fields_size };

    ghost use Rattle.bson_values.specs.Falls.{fields_fall};

    ghost size_decreases = { λ d h. fields_fall d.fields.items };
}

impl Model for Array {
    ghost use Rattle.bson_model.specs.Tree.{Items};
    ghost use Rattle.bson_values.specs.Code.{items_code};

    ghost Value = { Items };

    ghost coded = { items_code };

    ghost use Rattle.bson_values.specs.View.{items_of};
    ghost use Rattle.bson_values.specs.Sound.{AreItems};
    ghost use Rattle.bson_values.specs.Sizes.{items_size};

    ghost view = { λ a. items_of a.values.items };

    ghost invariant = { λ a. AreItems (items_of a.values.items) };

    ghost size = { items_size };

    ghost use Rattle.bson_values.specs.Falls.{items_fall};

    ghost size_decreases = { λ a h. items_fall a.values.items };
}

// The type states the length.
fn look_at_id(bytes: &[u8; 12])
    ensures { length bytes.now ≡ 12 }
{
    let _bytes = *bytes;
}

impl Value {
    // What the type alone says about the value; each arm uses the value, so that the fact is known.
    #[inline(always)]
    fn look(&self)
        ensures { IsDatum (datum_of self.now) }
    {
        match self {
            Value::Text(text) => {
                let _text = text.as_str();
            }
            Value::Doc(document) => {
                let _fields = &document.fields;
            }
            Value::Array(array) => {
                let _values = &array.values;
            }
            Value::Binary { subtype, bytes: _ } => {
                let _subtype = *subtype;
            }
            Value::ObjectId(bytes) => {
                look_at_id(&bytes.content);
            }
            Value::Bool(_) => {}
            Value::Date(n) => {
                let _n = *n;
            }
            Value::Null => {}
            Value::Int32(n) => {
                let _n = n.content;
            }
            Value::Timestamp(n) => {
                let _n = *n;
            }
            Value::Int64(n) => {
                let _n = *n;
            }
            Value::MinKey => {}
            Value::MaxKey => {}
        }
    }
}

impl Document {
    /// The document without fields.
    pub fn new(alloc: Global) -> Document
        ensures { result ≡ no_fields }
    {
        Document {
            fields: Vec::new(alloc),
        }
    }

    // Returns the document without fields, with room for `room`, or `Memory` if memory runs out.
    #[inline(always)]
    pub(crate) fn with_room(alloc: Global, room: usize) -> Result<Document, Memory>
        ensures { IfOk result (λ d. d ≡ no_fields) }
    {
        let fields = Vec::with_capacity(alloc, room)?;
        Ok(Document { fields })
    }

    /// Returns the number of fields.
    #[tactic(auto, using(crate::proofs::Views::count_fields))]
    pub fn len(&self) -> usize
        ensures { result ≡ fields_count self.now }
    {
        self.fields.len()
    }

    /// Returns whether there is no field.
    pub fn is_empty(&self) -> bool
        ensures { result ≡ (fields_count self.now == 0) }
    {
        self.len() == 0
    }

    /// Appends a field. Returns `Memory` if memory runs out, and then changes nothing.
    #[inline(always)]
    #[tactic(auto, using(crate::proofs::Views::pushed_fields))]
    pub fn push(&mut self, name: Name, value: Value) -> Result<(), Memory>
        ensures ok { OnOk result (self.new ≡ joined self.old (field name (datum_of value) no_fields)) }
        ensures err { OnErr result (self.new ≡ self.old) }
    {
        let _name = name.as_str();
        value.look();
        // Where there is room, the field is not moved through a call.
        if self.fields.len() < self.fields.capacity() {
            self.fields.push_reserved(Field { name, value });
            return Ok(());
        }
        self.fields.push(Field { name, value })?;
        Ok(())
    }

    /// The fields, in order.
    #[tactic(auto, using(crate::proofs::Views::fields_inside))]
    pub fn fields(&self) -> &[Field]
        ensures fields { fields_of result.now ≡ self.now }
        ensures inside { All (λ m. datum_size (datum_of m.value) ≤ fields_size self.now) result.now }
        ensures sound { AreFields self.now }
    {
        self.fields.as_slice()
    }

    /// Returns the fields, in order. The document is taken apart, and nothing is copied.
    #[tactic(auto, using(crate::proofs::Views::fields_inside))]
    pub fn into_fields(self) -> Vec<Field>
        ensures fields { fields_of result.items ≡ self }
        ensures inside { All (λ m. datum_size (datum_of m.value) ≤ fields_size self) result.items }
        ensures sound { AreFields self }
    {
        self.fields
    }

    /// Returns the value of the first field of that name.
    pub fn get(&self, name: &str) -> Option<&Value>
        ensures { option_map (λ v. datum_of v.now) result ≡ get name.now self.now }
    {
        for field in &self.fields {
            if field.name.as_str() == name {
                return Some(&field.value);
            }
        }
        None
    }
}

impl Array {
    /// The array without values.
    pub fn new(alloc: Global) -> Array
        ensures { result ≡ no_items }
    {
        Array {
            values: Vec::new(alloc),
        }
    }

    // Returns the array without values, with room for `room`, or `Memory` if memory runs out.
    #[inline(always)]
    pub(crate) fn with_room(alloc: Global, room: usize) -> Result<Array, Memory>
        ensures { IfOk result (λ a. a ≡ no_items) }
    {
        let values = Vec::with_capacity(alloc, room)?;
        Ok(Array { values })
    }

    /// Returns the number of values.
    #[tactic(auto, using(crate::proofs::Views::count_items))]
    pub fn len(&self) -> usize
        ensures { result ≡ items_count self.now }
    {
        self.values.len()
    }

    /// Returns whether there is no value.
    pub fn is_empty(&self) -> bool
        ensures { result ≡ (items_count self.now == 0) }
    {
        self.len() == 0
    }

    /// Appends a value. Returns `Memory` if memory runs out, and then changes nothing.
    #[tactic(auto, using(crate::proofs::Views::pushed_items))]
    pub fn push(&mut self, value: Value) -> Result<(), Memory>
        ensures ok { OnOk result (self.new ≡ joined_items self.old (item (datum_of value) no_items)) }
        ensures err { OnErr result (self.new ≡ self.old) }
    {
        value.look();
        self.values.push(value)?;
        Ok(())
    }

    /// The values, in order.
    #[tactic(auto, using(crate::proofs::Views::items_inside))]
    pub fn values(&self) -> &[Value]
        ensures values { items_of result.now ≡ self.now }
        ensures inside { All (λ v. datum_size (datum_of v) ≤ items_size self.now) result.now }
        ensures sound { AreItems self.now }
    {
        self.values.as_slice()
    }

    /// Returns the values, in order. The array is taken apart, and nothing is copied.
    #[tactic(auto, using(crate::proofs::Views::items_inside))]
    pub fn into_values(self) -> Vec<Value>
        ensures values { items_of result.items ≡ self }
        ensures inside { All (λ v. datum_size (datum_of v) ≤ items_size self) result.items }
        ensures sound { AreItems self }
    {
        self.values
    }
}
