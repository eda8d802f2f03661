//! Connections to a server, several at once, from the bytes that their clients send to the bytes of the replies, and what the server leaves. The server is that
//! of the command `serve`, over links in memory. Its rows are in the files of data/, whose lines begin with a word:
//!
//! - `#` and the name of the row that begins; `note` and a remark;
//! - `shards` and `routers` with their number, if it is not 1; `sessions` and how many links are accepted, if not all; `refused`: the server may not listen;
//! - `holds`, a disk (0 the catalogue's, then those of the shards and of the routers) and its bytes at the start; without it a disk is empty;
//! - `fail`, a disk, and the number of a call that fails;
//! - `ask`, the number of a link, from 0, and bytes, of which a reply is wanted; `send` and the same, of which none is. Bytes are hexadecimal; `3*05` means
//!   `050505`;
//! - `turn`: what follows is sent only once all replies that were wanted before are written, on all links;
//! - `gets`, a link, and bytes that are written to it, where `?8` means eight bytes of any value;
//! - `breaks`, a link, and the offset of the first byte that is not of a request; `loses` and a link that ends without a reply; all other links end where
//!   their clients do;
//! - `keeps`, a disk and its bytes at the end, of which each record is read; `has`, the same where some are none; `size`, a disk and the number of its bytes at
//!   the end;
//! - `or`: what follows is said of another outcome; one of the outcomes must have come about;
//! - `ends` and the status of the server, and the row ends.
//!
//! For each file a line says how many rows hold; before that, the last line of each row that does not.
#![tactic(auto)]

mod runs;

use crate::runs::Cluster;
use row_disks::{RowFault, check_file, exit_of};
use serve_lines::Servers;
use std::io::Print;
use std::process::ExitCode;
use std::rt::Files;
use std::sync::Wait;
use std::thread::Threads;

/// The files, in the order in which they are checked.
const FILES: [&str; 3] = ["links.rows", "ends.rows", "starts.rows"];

/// Checks all files by the cluster.
fn check_files<R: Files + AllocGlobal + Print + Threads + Wait + Sync>(
    rt: &R,
) -> Result<(), RowFault> {
    let mut rows = Servers::new(rt.alloc(), &Cluster);
    for name in FILES {
        check_file(rt, name, &mut rows)?;
    }
    Ok(())
}

fn main(rt: HostRuntime) -> ExitCode {
    exit_of(&rt, check_files(&rt))
}
