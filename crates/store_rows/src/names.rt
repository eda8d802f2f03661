//! Names of databases and namespaces.

use cluster_base::{NameFault, Namespace, is_reserved_database};
use fixtures::{RowFault, Rows, bytes_of, field};
use std::alloc::Global;

/// `DATABASE | reserved` or `DATABASE | open`
#[derive(Drop)]
pub struct Databases;

impl Rows for Databases {
    fn holds(&mut self, _alloc: Global, row: &str) -> Result<bool, RowFault> {
        let (name, wanted) = field(row);
        Ok(is_reserved_database(name) == (wanted == "reserved"))
    }
}

// Returns whether the namespace and its copy have that name; or there is none, where no name is wanted.
fn has_name(found: Result<Namespace, NameFault>, wanted: Option<&str>) -> Result<bool, RowFault> {
    match found {
        Ok(namespace) => is_named(&namespace, wanted),
        Err(NameFault::Form) => Ok(wanted.is_none()),
        Err(NameFault::Memory) => Err(RowFault::Memory),
    }
}

fn is_named(namespace: &Namespace, wanted: Option<&str>) -> Result<bool, RowFault> {
    let copy = namespace.copy()?;
    Ok(Some(namespace.as_str()) == wanted && Some(copy.as_str()) == wanted)
}

/// `NAME | namespace` or `NAME | form`: whether the bytes are the full name of a namespace.
#[derive(Drop)]
pub struct Names;

impl Rows for Names {
    fn holds(&mut self, alloc: Global, row: &str) -> Result<bool, RowFault> {
        let (words, wanted) = field(row);
        let bytes = bytes_of(alloc, words)?;
        let Ok(name) = str::from_utf8(&bytes) else {
            return Err(RowFault::Form);
        };
        let wanted = (wanted == "namespace").then_some(name);
        has_name(Namespace::read(alloc, name), wanted)
    }
}

/// `DATABASE | COLLECTION | namespace`, or `form`: whether the two make a namespace.
#[derive(Drop)]
pub struct Parts;

impl Rows for Parts {
    fn holds(&mut self, alloc: Global, row: &str) -> Result<bool, RowFault> {
        let (database, rest) = field(row);
        let (collection, wanted) = field(rest);
        let database = bytes_of(alloc, database)?;
        let collection = bytes_of(alloc, collection)?;
        make(alloc, &database, &collection, wanted == "namespace")
    }
}

fn make(
    alloc: Global,
    database: &[u8],
    collection: &[u8],
    is_wanted: bool,
) -> Result<bool, RowFault> {
    let Ok(database) = str::from_utf8(database) else {
        return Err(RowFault::Form);
    };
    let Ok(collection) = str::from_utf8(collection) else {
        return Err(RowFault::Form);
    };
    let name = format!(in alloc; "{database}.{collection}")?;
    let wanted = is_wanted.then_some(name.as_str());
    has_name(Namespace::of_parts(alloc, database, collection), wanted)
}
