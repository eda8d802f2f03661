//! The files of the journals.

ghost use Rattle.std.specs.Prelude.{◌≡◌, ◌<◌, ◌≤◌, [], ◌∷◌, map, replicate, string_bytes, IfOk, vec_len};
ghost use Rattle.cluster_main.specs.Names.{journal_name, journal_names};

use bson_values::Memory;
use outside::standard::FileDisk;
use std::alloc::Global;
use std::fs::Files;

/// Returns the name of a node's journal in the working folder: `node`, the node's number in two digits, and `.journal`. No two of the
/// first hundred nodes have one.
pub fn name_of(alloc: Global, node: usize) -> Result<String, Memory>
    requires { node < 100 }
    ensures { IfOk result (λ name. string_bytes name ≡ journal_name node) }
{
    let mut name = String::from_str(alloc, "node")?;
    name.push(char::from(b'0' + (node / 10 % 10) as u8))?;
    name.push(char::from(b'0' + (node % 10) as u8))?;
    name.push_str(".journal")?;
    Ok(name)
}

/// Returns the disks over the journals' files of so many nodes, in order of the nodes, with no fault counted.
pub fn file_disks<R: Files + Copy + Drop>(
    rt: R,
    alloc: Global,
    count: usize,
) -> Result<Vec<FileDisk<R>>, Memory>
    requires { count ≤ 100 }
    ensures len { IfOk result (λ disks. vec_len disks ≡ count) }
    ensures places { IfOk result (λ disks. map (λ d. string_bytes d.path) disks.items ≡ journal_names count) }
    ensures calm { IfOk result (λ disks. map (λ d. d.faults) disks.items ≡ replicate count 0) }
{
    let mut disks = Vec::new(alloc);
    for node in 0..count {
        disks.push(FileDisk::new(rt, name_of(alloc, node)?))?;
    }
    Ok(disks)
}
