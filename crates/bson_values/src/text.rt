//! Texts, names and bytes: the parts of a document without nested values.

ghost use Rattle.std.specs.Prelude.{◌≡◌, ◌≤◌, ◌<◌, length, take, IfOk, IfSome, IsTrue};
ghost use Rattle.std.specs.Str.{IsUtf8};
ghost use Rattle.bson_model.specs.Grammar.{HasNoZero};
ghost use Rattle.bson_values.specs.Names.{has_no_zero};
ghost use Rattle.bson_values.specs.declared.text.TheConstants.{MOST_SHORT};

use std::alloc::{AllocError, AllocFailed, Global};
use std::marker::Model;
use std::str;

/// Out of memory, the only error of building a value.
#[derive(Clone, Copy, Debug, PartialEq, Eq)]
pub struct Memory;

impl From<AllocError> for Memory {
    fn from(_e: AllocError) -> Memory {
        Memory
    }
}

impl<T: Drop> From<AllocFailed<T>> for Memory {
    fn from(_e: AllocFailed<T>) -> Memory {
        Memory
    }
}

/// The greatest number of bytes of a text that are stored in the value itself: the room that a `String` and its tag take.
const MOST_SHORT: usize = 30;

/// The greatest number of bytes of a name that are stored in the field itself: with their length they are two words.
const MOST_SHORT_NAME: usize = 15;

/// The bytes of a short text, at most N, and how many of them are used. A length of one byte keeps more room for the text.
#[derive(Clone, Copy, Debug)]
struct Short<const N: usize> {
    length: u8,
    bytes: [u8; N],
    ghost fits: { length ≤ N },
    ghost utf8: { ∥ IsUtf8 (take length bytes) ∥₁ },
}

impl<const N: usize> Short<N> {
    ghost use Rattle.bson_values.specs.Texts.{short_bytes};

    /// Copies the text, where it is short.
    #[inline(always)]
    fn of(text: &str) -> Option<Short<N>>
        requires length_fits { N < 256 }
        ensures { IfSome result (λ s. short_bytes s ≡ text.now) }
    {
        let length = text.len();
        if length > N {
            return None;
        }
        let mut bytes = [0; N];
        bytes[..length].copy_from_slice(text.as_bytes());
        Some(Short {
            length: length as u8,
            bytes,
        })
    }

    /// Copies the text at the beginning of the bytes, where it is short. The copy always has N bytes, whatever follows the text, since a copy of a known
    /// length stays in registers.
    #[inline(always)]
    fn of_front(text: &str, bytes: &[u8]) -> Option<Short<N>>
        requires length_fits { N < 256 }
        requires front { text.now ≡ take (length text.now) bytes.now }
        ensures { IfSome result (λ s. short_bytes s ≡ text.now) }
    {
        let length = text.len();
        if length > N {
            return None;
        }
        // Where fewer than N bytes are left they are padded to N, so that there is one copy.
        let mut padded = [0; N];
        let front = if bytes.len() < N {
            padded[..length].copy_from_slice(text.as_bytes());
            &padded
        } else {
            &bytes[..N]
        };
        let mut copy = [0; N];
        copy.copy_from_slice(front);
        Some(Short {
            length: length as u8,
            bytes: copy,
        })
    }

    /// The text's bytes.
    #[inline(always)]
    fn as_str(&self) -> &str
        ensures { result.now ≡ short_bytes self.now }
    {
        // The bytes that are used are those of a text, by the invariant.
        unsafe { str::from_utf8_unchecked(&self.bytes[..self.length as usize]) }
    }
}

/// Where the bytes of a text are: a short text in the value itself, since most texts are short.
#[derive(Debug, Drop)]
enum Held {
    Short(Short<MOST_SHORT>),
    Long(String),
}

/// A text: bytes that are UTF-8.
#[derive(Debug, Drop)]
pub struct Text {
    held: Held,
}

impl Model for Text {
    ghost use Rattle.std.specs.Prelude.{List, ℕ};
    ghost use Rattle.std.specs.Str.{IsUtf8};
    ghost use Rattle.bson_values.specs.Texts.{held_bytes};

    ghost Value = { List ℕ };

    ghost view = { λ t. held_bytes t.held };

    ghost invariant = { λ t. IsUtf8 (held_bytes t.held) };
}

impl Text {
    /// Copies the text. Returns `Memory` if memory runs out.
    #[inline(always)]
    pub fn of(alloc: Global, text: &str) -> Result<Text, Memory>
        ensures { IfOk result (λ t. t ≡ text.now) }
    {
        let held = match Short::of(text) {
            Some(short) => Held::Short(short),
            None => Held::Long(String::from_str(alloc, text)?),
        };
        Ok(Text { held })
    }

    /// Returns the text at the beginning of the bytes, where it is short. It allocates nothing, and may be stored where it is read.
    #[inline(always)]
    pub(crate) fn of_short_front(text: &str, bytes: &[u8]) -> Option<Text>
        requires { text.now ≡ take (length text.now) bytes.now }
        ensures { IfSome result (λ t. t ≡ text.now) }
    {
        let short = Short::of_front(text, bytes)?;
        Some(Text {
            held: Held::Short(short),
        })
    }

    /// The text's bytes.
    pub fn as_str(&self) -> &str
        ensures text { result.now ≡ self.now }
        ensures utf8 { IsUtf8 self.now }
    {
        match &self.held {
            Held::Short(text) => text.as_str(),
            Held::Long(text) => text.as_str(),
        }
    }

    /// Returns a copy of the text, or `Memory` if memory runs out.
    pub fn copy(&self) -> Result<Text, Memory>
        ensures { IfOk result (λ t. t ≡ self.now) }
    {
        let held = match &self.held {
            Held::Short(text) => Held::Short(*text),
            Held::Long(text) => Held::Long(text.clone()?),
        };
        Ok(Text { held })
    }
}

/// The bytes of a short name. They are aligned, so that a name is moved in whole words.
#[derive(Clone, Copy, Debug)]
struct ShortName {
    bytes: Short<MOST_SHORT_NAME>,
    aligned: [u64; 0],
}

/// Where the bytes of a name are: a short name in the field itself, since most names are short.
#[derive(Debug, Drop)]
enum HeldName {
    Short(ShortName),
    Long(Box<String>),
}

/// The name of a field: a text without 00 (BSON 1.1, `cstring`).
#[derive(Debug, Drop)]
pub struct Name {
    held: HeldName,
}

impl Model for Name {
    ghost use Rattle.std.specs.Prelude.{List, ℕ};
    ghost use Rattle.std.specs.Str.{IsUtf8};
    ghost use Rattle.bson_model.specs.Grammar.{HasNoZero};
    ghost use Rattle.bson_values.specs.Texts.{name_bytes};

    ghost Value = { List ℕ };

    ghost view = { λ n. name_bytes n.held };

    ghost invariant = { λ n. IsUtf8 (name_bytes n.held) × HasNoZero (name_bytes n.held) };
}

impl Name {
    /// Copies the text, which has no 00. Returns `Memory` if memory runs out.
    #[inline(always)]
    pub fn of(alloc: Global, text: &str) -> Result<Name, Memory>
        requires { IsTrue (has_no_zero text.now) }
        ensures { IfOk result (λ n. n ≡ text.now) }
    {
        let held = match Short::of(text) {
            Some(bytes) => HeldName::Short(ShortName { bytes, aligned: [] }),
            None => HeldName::Long(Box::new(alloc, String::from_str(alloc, text)?)?),
        };
        Ok(Name { held })
    }

    /// Copies the text at the beginning of the bytes, which has no 00. Returns `Memory` if memory runs out.
    #[inline(always)]
    pub(crate) fn of_front(alloc: Global, text: &str, bytes: &[u8]) -> Result<Name, Memory>
        requires name { IsTrue (has_no_zero text.now) }
        requires front { text.now ≡ take (length text.now) bytes.now }
        ensures { IfOk result (λ n. n ≡ text.now) }
    {
        let held = match Short::of_front(text, bytes) {
            Some(bytes) => HeldName::Short(ShortName { bytes, aligned: [] }),
            None => HeldName::Long(Box::new(alloc, String::from_str(alloc, text)?)?),
        };
        Ok(Name { held })
    }

    /// The name's bytes.
    pub fn as_str(&self) -> &str
        ensures text { result.now ≡ self.now }
        ensures no_zero { HasNoZero self.now }
        ensures utf8 { IsUtf8 self.now }
    {
        match &self.held {
            HeldName::Short(name) => name.bytes.as_str(),
            HeldName::Long(name) => name.as_str(),
        }
    }

    /// Returns a copy of the name, or `Memory` if memory runs out.
    pub fn copy(&self) -> Result<Name, Memory>
        ensures { IfOk result (λ n. n ≡ self.now) }
    {
        let held = match &self.held {
            HeldName::Short(name) => HeldName::Short(*name),
            HeldName::Long(name) => HeldName::Long(name.clone()?),
        };
        Ok(Name { held })
    }
}

/// Returns whether a text can be a name: it has no 00.
pub fn is_name(text: &str) -> bool
    ensures { result ≡ has_no_zero text.now }
{
    for b in text.as_bytes() {
        if *b == 0 {
            return false;
        }
    }
    true
}

/// Bytes of any values.
#[derive(Debug, Drop)]
pub struct Blob {
    bytes: Vec<u8>,
}

impl Model for Blob {
    ghost use Rattle.std.specs.Prelude.{List, ℕ};

    ghost Value = { List ℕ };

    ghost view = { λ b. b.bytes.items };
}

impl Blob {
    /// Copies the bytes. Returns `Memory` if memory runs out.
    pub fn of(alloc: Global, bytes: &[u8]) -> Result<Blob, Memory>
        ensures { IfOk result (λ b. b ≡ bytes.now) }
    {
        let bytes = Vec::from_slice(alloc, bytes)?;
        Ok(Blob { bytes })
    }

    /// The bytes.
    pub fn as_slice(&self) -> &[u8]
        ensures { result.now ≡ self.now }
    {
        self.bytes.as_slice()
    }

    /// Returns a copy of the bytes, or `Memory` if memory runs out.
    pub fn copy(&self) -> Result<Blob, Memory>
        ensures { IfOk result (λ b. b ≡ self.now) }
    {
        let bytes = Vec::from_slice(*self.bytes.allocator(), self.bytes.as_slice())?;
        Ok(Blob { bytes })
    }
}
