//! The types of elements (BSON 1.1, `element`).

ghost use Rattle.std.specs.Prelude.{◌≡◌};
ghost use Rattle.bson_values.specs.Types.{type_from};

/// One of the supported types.
#[derive(Clone, Copy, Debug, PartialEq, Eq)]
pub enum ElementType {
    Text,
    Doc,
    Array,
    Binary,
    ObjectId,
    Bool,
    Date,
    Null,
    Int32,
    Timestamp,
    Int64,
    MinKey,
    MaxKey,
}

impl ElementType {
    /// Returns the type that the byte encodes.
    #[inline(always)]
    pub fn from_byte(byte: u8) -> Option<ElementType>
        ensures { result ≡ type_from byte }
    {
        match byte {
            0x02 => Some(ElementType::Text),
            0x03 => Some(ElementType::Doc),
            0x04 => Some(ElementType::Array),
            0x05 => Some(ElementType::Binary),
            0x07 => Some(ElementType::ObjectId),
            0x08 => Some(ElementType::Bool),
            0x09 => Some(ElementType::Date),
            0x0A => Some(ElementType::Null),
            0x10 => Some(ElementType::Int32),
            0x11 => Some(ElementType::Timestamp),
            0x12 => Some(ElementType::Int64),
            0xFF => Some(ElementType::MinKey),
            0x7F => Some(ElementType::MaxKey),
            _ => None,
        }
    }
}
