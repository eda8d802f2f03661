//! The locks on the journals' files.

ghost use Rattle.std.specs.Prelude.{◌≡◌, ◌≤◌, IfOk, IsErr, vec_len};
ghost use Rattle.std.specs.Option.{unwrap_or};
ghost use Rattle.cluster_service.specs.Arguments.{node_count_of};

use crate::arguments::NoArguments;
use crate::journals::name_of;
use bson_values::{Memory, Text};
use cluster_top::node_count;
use std::alloc::Global;
use std::fs::{File, Files, OpenOptions};

/// Why the journals are not locked.
#[derive(Clone, Copy, Debug, PartialEq, Eq)]
pub enum NoLocks {
    /// A file can't be opened, or its lock is held: by another start, or for another journal that is the same file.
    Refused,
    /// Out of memory for its name.
    Memory,
}

impl From<Memory> for NoLocks {
    fn from(_: Memory) -> NoLocks {
        NoLocks::Memory
    }
}

/// Opens the file of this name in the working folder, or makes it, and takes its lock.
fn lock_file<R: Files<File = File>>(rt: &R, name: &str) -> Result<File, NoLocks> {
    let file = OpenOptions::new()
        .read(true)
        .write(true)
        .create(true)
        .open(rt, name)
        .map_err(|_| NoLocks::Refused)?;
    match file.try_lock() {
        Ok(()) => Ok(file),
        Err(_) => Err(NoLocks::Refused),
    }
}

/// Takes the exclusive lock on the journal's file of each of so many nodes, and returns the files, in order. The locks are
/// held until the files are dropped. A file that is not there is made; no byte is read or written.
///
/// No clause of the standard library says which file a name opens, nor who holds a lock: the contract says how many files
/// there are, and that each is locked is only tried, by bench/two_starts.py.
///
/// # Errors
/// `Refused` where a file can't be opened or its lock is held; `Memory` if memory runs out for a name.
pub fn lock_journals<R: Files<File = File>>(
    rt: &R,
    alloc: Global,
    count: usize,
) -> Result<Vec<File>, NoLocks>
    requires { count ≤ 100 }
    ensures { IfOk result (λ files. vec_len files ≡ count) }
{
    let mut files = Vec::new(alloc);
    for node in 0..count {
        let name = name_of(alloc, node)?;
        let file = lock_file(rt, name.as_str())?;
        files.push(file).map_err(|_| NoLocks::Memory)?;
    }
    Ok(files)
}

/// Returns how many journals a command line needs: one for each node that its arguments start, and none where they are refused.
pub fn journal_count(words: &Result<Vec<Text>, NoArguments>) -> usize
    ensures nodes { IfOk words.now (λ given. result ≡ unwrap_or (node_count_of given.items) 0) }
    ensures refused { IsErr words.now → result ≡ 0 }
    ensures few { result ≤ 25 }
{
    match words {
        Ok(given) => node_count(given).unwrap_or(0),
        Err(_) => 0,
    }
}
