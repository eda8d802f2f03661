//! Names that are paths, and names that are not.

use field_paths::{Path, PathFault};
use fixtures::{RowFault, Rows, field};
use std::alloc::Global;

/// Returns the path of a name. Returns `Form` where it is none, and `Memory` if memory runs out.
pub fn path_of(alloc: Global, name: &str) -> Result<Path, RowFault> {
    match Path::parse(alloc, name) {
        Ok(path) => Ok(path),
        Err(PathFault::Memory) => Err(RowFault::Memory),
        Err(_fault) => Err(RowFault::Form),
    }
}

/// `NAME | path`, or in place of `path` the fault: `empty`, `digits`, `dollar` or `long`.
#[derive(Drop)]
pub struct Paths;

impl Rows for Paths {
    fn holds(&mut self, alloc: Global, row: &str) -> Result<bool, RowFault> {
        let (name, wanted) = field(row);
        is_read_so(alloc, name, wanted)
    }
}

/// Returns whether a name is a path, where `path` is expected, or is refused with the fault that is expected. Returns `Form` where the word is neither.
pub fn is_read_so(alloc: Global, name: &str, wanted: &str) -> Result<bool, RowFault> {
    match wanted {
        "path" => Ok(is_path(alloc, name)),
        "empty" => Ok(is_refused(alloc, name, PathFault::Empty)),
        "digits" => Ok(is_refused(alloc, name, PathFault::Digits)),
        "dollar" => Ok(is_refused(alloc, name, PathFault::Dollar)),
        "long" => Ok(is_refused(alloc, name, PathFault::Long)),
        _ => Err(RowFault::Form),
    }
}

// Returns whether the name is a path with one more part than dots.
fn is_path(alloc: Global, name: &str) -> bool {
    match Path::parse(alloc, name) {
        Ok(path) => path.parts().len() == name.split('.').count(),
        Err(_fault) => false,
    }
}

fn is_refused(alloc: Global, name: &str, wanted: PathFault) -> bool {
    match Path::parse(alloc, name) {
        Ok(_path) => false,
        Err(fault) => fault == wanted,
    }
}
