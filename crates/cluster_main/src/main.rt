//! The program `cluster`. Its arguments are `pipe`: it takes the bytes of one connection from standard input and replies on standard
//! output; or `sim`: it plays the script of events on standard input, and prints on standard output; or `serve --port p --sessions k`: it
//! listens on port p of 127.0.0.1, says so on standard error, serves k connections, and ends once they have ended. With `--shards n` there
//! are n shards, from 1 to 16, in place of one for `pipe` and two for `sim` and `serve`; with `--routers m`, which `pipe` does not have, m
//! routers, from 1 to 8, in place of one. What requests change is stored in the files node00.journal, node01.journal and on in the working
//! folder, one for each node, first the catalogue's, then those of the shards, then those of the routers: they are absent, empty, or those
//! that earlier starts left, with as many shards and routers. It ends with the status of the run, and where that is not 0 it writes one
//! line to standard error. It holds the lock of each of these files from before their first use to its end, and ends with status 5 where
//! one is held by another; where its arguments are refused no file is opened.
#![tactic(auto)]

mod announced;
mod arguments;
mod journals;
mod laws;
mod line;
mod locks;
mod places;
mod status;

use crate::announced::Announced;
use crate::arguments::arguments_of;
use crate::journals::file_disks;
use crate::line::told;
use crate::locks::{NoLocks, journal_count, lock_journals};
use crate::places::hold_places;
use crate::status::serve;
use cluster_top::Status;
use outside::standard::{StdSink, StdSource, WallClock};
use outside_tcp::TcpPort;
use std::env;
use std::process::ExitCode;

fn main(rt: HostRuntime) -> ExitCode {
    let places = hold_places(&rt);
    let words = arguments_of(rt.alloc(), env::args(&rt));
    let count = journal_count(&words);
    if places.is_err() && count > 0 {
        return told(&rt, Status::DiskFailed.number());
    }
    let _locks = match lock_journals(&rt, rt.alloc(), count) {
        Ok(files) => files,
        Err(NoLocks::Refused) => return told(&rt, Status::DiskFailed.number()),
        Err(NoLocks::Memory) => return told(&rt, Status::OutOfMemory.number()),
    };
    let mut input = StdSource::new(rt.stdin());
    let mut out = StdSink::new(rt.stdout());
    let mut port = Announced::new(TcpPort::new(rt), rt);
    let Ok(disks) = file_disks(rt, rt.alloc(), count) else {
        return told(&rt, Status::OutOfMemory.number());
    };
    serve(
        &rt,
        rt.alloc(),
        words,
        &mut input,
        &mut out,
        &mut port,
        disks,
        &WallClock::new(rt),
    )
    .code
}
