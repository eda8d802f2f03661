//! Connections of the wire, from the bytes that arrive to the bytes of the replies: what the framer returns for them, which commands they are or why they are
//! refused, and the replies of a run, or of several on the same files. Their rows are in the files of data/, whose lines begin with a word:
//!
//! - `#` and the name of the row that begins; `note` and a remark;
//! - `clock` and the moments at which the first requests are served, in milliseconds; each later one is served at 1000000;
//! - `ask` and bytes that arrive, in hexadecimal; `3*05` means `050505`;
//! - `is` and what the framer and the commands return for them: a request, a fault with its offset, or the number of bytes left;
//! - `gets` and bytes of replies;
//! - `pipe` or `sim`, alone or with `--shards` and a number, or `--routers` and a number, or both in this order: these words are the run's arguments, where
//!   without this line it is `pipe`; with `sim` the bytes are a script; it comes before the lines of the disks;
//! - `cut`: the result is the same in each cutting in two and byte by byte;
//! - `fail` and `take`, `put` or a disk (0 the catalogue's, then those of the shards and of the routers), and the number of a call that fails;
//! - `narrow` and the greatest number of bytes that one write takes;
//! - `file`, a disk and its bytes at the start; `keeps`, a disk and its bytes at the end: an opening of its journal finds just the records in these by their
//!   gates and lengths, and all bytes of each are read as one record; `size`, a disk and the number of its bytes at the end; `same` and a disk: its bytes at
//!   the end are those at its start; `untouched`: all disks have the bytes of the start, and no call changed or synced one;
//! - `untaken` and how many bytes were left to take;
//! - `record`, a disk and a record, and `finds`, a disk and two numbers: an opening of that disk's journal finds the first of its records, at least as many
//!   as the first number, and at most as many as the second;
//! - `then`, and what follows `ends`: the call ends, and the row goes on with another one, of `pipe` if no line says otherwise, on the files that this
//!   one left;
//! - `unserved`: the bytes are read as if they arrived in an OP_QUERY, and the row ends;
//! - `ends`, the status of the run and how many bytes follow the last whole request, and the row ends.
//!
//! For each file a line says how many rows hold; before that, the last line of each row that does not.
#![tactic(auto)]

mod runs;

use crate::runs::Cluster;
use row_disks::{RowFault, check_file, exit_of};
use std::io::Print;
use std::process::ExitCode;
use std::rt::Files;
use std::sync::Wait;
use std::thread::Threads;
use wire_lines::Connections;

/// The files, in the order in which they are checked.
const FILES: [&str; 22] = [
    "frames.rows",
    "commands.rows",
    "refusals.rows",
    "connections.rows",
    "writes.rows",
    "retries.rows",
    "reads.rows",
    "cursors.rows",
    "chunks.rows",
    "drivers.rows",
    "drivers.reads.rows",
    "devices.rows",
    "scripts.rows",
    "retries.script.rows",
    "routers.rows",
    "chunks.script.rows",
    "shards.rows",
    "takings.rows",
    "starts.rows",
    "starts.script.rows",
    "restarts.script.rows",
    "limits.script.rows",
];

/// Checks all files by the cluster.
fn check_files<R: Files + AllocGlobal + Print + Threads + Wait + Sync>(
    rt: &R,
) -> Result<(), RowFault> {
    let mut rows = Connections::new(rt.alloc(), &Cluster)?;
    for name in FILES {
        check_file(rt, name, &mut rows)?;
    }
    Ok(())
}

fn main(rt: HostRuntime) -> ExitCode {
    exit_of(&rt, check_files(&rt))
}
