//! Names of databases, collections and namespaces (MongoDB manual, "Naming Restrictions").
ghost use Rattle.std.specs.Prelude.{◌≡◌, ◌↔◌, IsTrue, IfOk, IsErrOf};
ghost use Rattle.std.specs.List.{AllByRecursion};
ghost use Rattle.base_model.specs.Names.{IsDatabaseByte, IsDatabaseName, IsCollectionByte, IsCollectionName, MakeNamespace, IsNamespace, full_name, is_reserved};
ghost use Rattle.cluster_base.specs.declared.namespace.NameFault.TheVariants.{Memory as out_of_memory};

use bson_values::{Memory, Text};
use std::alloc::{AllocError, Global};
use std::marker::Model;

/// The most bytes that a database's name has.
const DATABASE_BYTES: usize = 63;

/// The most bytes that the full name of a namespace has.
const NAMESPACE_BYTES: usize = 255;

/// Why a name is no namespace.
#[derive(Clone, Copy, Debug, PartialEq, Eq)]
pub enum NameFault {
    /// The text is not the full name of a namespace.
    Form,
    /// Out of memory for the name.
    Memory,
}

impl From<Memory> for NameFault {
    ghost from_gives = { λ _ e. e ≡ out_of_memory };

    fn from(_e: Memory) -> NameFault {
        NameFault::Memory
    }
}

impl From<AllocError> for NameFault {
    ghost from_gives = { λ _ e. e ≡ out_of_memory };

    fn from(_e: AllocError) -> NameFault {
        NameFault::Memory
    }
}

/// Returns whether the database is one of those that hold no collections of clients: `admin`, `config` and `local`.
pub fn is_reserved_database(database: &str) -> bool
    ensures { result ≡ is_reserved database.now }
{
    database == "admin" || database == "config" || database == "local"
}

/// Returns whether a database's name may have the byte.
fn is_database_byte(b: u8) -> bool
    ensures { IsTrue result ↔ IsDatabaseByte b }
{
    !matches!(b, b'.' | b' ' | b'"' | b'$' | b'/' | b'\\' | 0)
}

/// Returns whether a collection's name may have the byte.
fn is_collection_byte(b: u8) -> bool
    ensures { IsTrue result ↔ IsCollectionByte b }
{
    b != b'$' && b != 0
}

/// Returns whether the name consists of bytes that a database's name may have.
fn has_database_bytes(name: &[u8]) -> bool
    ensures { IsTrue result ↔ AllByRecursion IsDatabaseByte name.now }
{
    for b in name {
        if !is_database_byte(*b) {
            return false;
        }
    }
    true
}

/// Returns whether the name consists of bytes that a collection's name may have.
fn has_collection_bytes(name: &[u8]) -> bool
    ensures { IsTrue result ↔ AllByRecursion IsCollectionByte name.now }
{
    for b in name {
        if !is_collection_byte(*b) {
            return false;
        }
    }
    true
}

/// Returns whether a database may have that name.
fn is_database_name(name: &[u8]) -> bool
    ensures { IsTrue result ↔ IsDatabaseName name.now }
{
    !name.is_empty() && name.len() <= DATABASE_BYTES && has_database_bytes(name)
}

/// Returns whether a collection may have that name.
fn is_collection_name(name: &[u8]) -> bool
    ensures { IsTrue result ↔ IsCollectionName name.now }
{
    match name {
        [] | [b'.', ..] => false,
        _ => has_collection_bytes(name),
    }
}

/// Returns whether the two names make a namespace.
fn make_namespace(database: &str, collection: &str) -> bool
    ensures { IsTrue result ↔ MakeNamespace database.now collection.now }
{
    database.len() + 1 + collection.len() <= NAMESPACE_BYTES
        && is_database_name(database.as_bytes())
        && is_collection_name(collection.as_bytes())
}

/// Returns whether the text is the full name of a namespace.
fn is_namespace(text: &str) -> bool
    ensures { IsTrue result ↔ IsNamespace text.now }
{
    match text.split_once('.') {
        Some((database, collection)) => make_namespace(database, collection),
        None => false,
    }
}

/// The full name of a namespace: database, dot, collection.
#[derive(Debug, Drop)]
pub struct Namespace {
    text: Text,
}

impl Model for Namespace {
    ghost use Rattle.std.specs.Prelude.{List, ℕ};
    ghost use Rattle.base_model.specs.Names.{IsNamespace};

    ghost Value = { List ℕ };

    ghost view = { λ n. n.text };

    ghost invariant = { λ n. IsNamespace n.text };
}

impl Namespace {
    /// Returns the namespace of that full name. Returns `Form` exactly where the text is none, and `Memory` if
    /// memory runs out.
    pub fn read(alloc: Global, text: &str) -> Result<Namespace, NameFault>
        ensures ok { IfOk result (λ n. (n ≡ text.now) × IsNamespace text.now) }
        ensures form { IsErrOf result NameFault.Form ↔ ¬ (IsNamespace text.now) }
    {
        if !is_namespace(text) {
            return Err(NameFault::Form);
        }
        let text = Text::of(alloc, text)?;
        Ok(Namespace { text })
    }

    /// Returns the namespace of a collection in a database, `Form` exactly where the two make none, or `Memory` if
    /// memory runs out.
    pub fn of_parts(alloc: Global, database: &str, collection: &str) -> Result<Namespace, NameFault>
        ensures ok { IfOk result (λ n. (n ≡ full_name database.now collection.now) × MakeNamespace database.now collection.now) }
        ensures form { IsErrOf result NameFault.Form ↔ ¬ (MakeNamespace database.now collection.now) }
    {
        if !make_namespace(database, collection) {
            return Err(NameFault::Form);
        }
        let name = format!(in alloc; "{database}.{collection}")?;
        let text = Text::of(alloc, &name)?;
        Ok(Namespace { text })
    }

    /// Returns the full name.
    pub fn as_str(&self) -> &str
        ensures text { result.now ≡ self.now }
        ensures namespace { IsNamespace self.now }
    {
        self.text.as_str()
    }

    /// Returns a copy of the namespace, or `Memory` if memory runs out.
    pub fn copy(&self) -> Result<Namespace, Memory>
        ensures { IfOk result (λ n. n ≡ self.now) }
    {
        let text = self.text.copy()?;
        Ok(Namespace { text })
    }
}
