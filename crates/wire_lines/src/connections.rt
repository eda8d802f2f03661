//! Whether rows hold.

use crate::devices::{Left, Serves, served};
use crate::frames::told_of;
use crate::pieces::Cutting;
use crate::row::Row;
use outside::streams::Source;
use row_disks::{RowFault, Rows, are_left, are_untouched, number, split};
use std::alloc::Global;
use std::sync::Wait;
use std::thread::Threads;

/// How a row ends: the status of its run, and how many bytes follow the last whole request.
#[derive(Clone, Copy, Debug, PartialEq, Eq)]
struct End {
    status: u64,
    rest: u64,
}

/// Returns the end that the line states.
fn end_in(line: &str) -> Result<End, RowFault> {
    let (status, rest) = split(line)?;
    Ok(End {
        status: number(status)?,
        rest: number(rest)?,
    })
}

/// Returns whether the framer and the commands read the row's bytes as its lines say. A script is not checked.
fn is_told(alloc: Global, row: &Row, cutting: Cutting, as_query: bool) -> Result<bool, RowFault> {
    if row.is_script {
        return Ok(true);
    }
    let told = told_of(alloc, &row.asked, cutting, as_query)?;
    Ok(told.as_str() == row.told.as_str())
}

/// The status of a run whose bytes were not a request.
const BAD_INPUT: u64 = 9;

/// Returns how many bytes are left to take.
fn untaken(left: &mut Left) -> u64 {
    left.source.source.take(&mut [0; 1024]).unwrap_or(0) as u64
}

/// Returns whether the call ended so, and took and wrote what the row says. How many bytes are left after a fault depends on the cutting: those that were taken
/// before the fault was found.
fn is_ended(row: &Row, end: End, cutting: Cutting, left: &mut Left) -> bool {
    let is_rest = left.rest == end.rest || end.status == BAD_INPUT && cutting != Cutting::none();
    let is_put = left.sink.sink.bytes() == row.replies.as_slice();
    let untaken = untaken(left);
    let is_taken = row.untaken.unwrap_or(untaken) == untaken;
    u64::from(left.status) == end.status && is_rest && is_put && is_taken
}

/// Returns whether the disks are as the row says.
fn is_stored(alloc: Global, row: &Row, left: &Left) -> Result<bool, RowFault> {
    if row.is_untouched && !are_untouched(&row.disks, &left.disks) {
        return Ok(false);
    }
    are_left(alloc, &row.disks, &left.disks)
}

/// Returns whether the row's bytes get its replies and its end, and the disks are afterwards as it says.
fn is_served<R: Threads + Wait + Sync, S: Serves>(
    rt: &R,
    server: &S,
    alloc: Global,
    row: &Row,
    end: End,
    cutting: Cutting,
) -> Result<bool, RowFault> {
    let mut left = served(rt, server, alloc, row, cutting)?;
    if !is_ended(row, end, cutting, &mut left) {
        return Ok(false);
    }
    is_stored(alloc, row, &left)
}

/// Returns whether both hold.
fn is_met<R: Threads + Wait + Sync, S: Serves>(
    rt: &R,
    server: &S,
    alloc: Global,
    row: &Row,
    end: End,
    cutting: Cutting,
) -> Result<bool, RowFault> {
    Ok(is_told(alloc, row, cutting, false)? && is_served(rt, server, alloc, row, end, cutting)?)
}

/// Returns whether both hold in each cutting in two, and byte by byte.
fn is_met_cut<R: Threads + Wait + Sync, S: Serves>(
    rt: &R,
    server: &S,
    alloc: Global,
    row: &Row,
    end: End,
) -> Result<bool, RowFault> {
    for cut in 1..row.asked.len() {
        if !is_met(rt, server, alloc, row, end, Cutting::at(cut))? {
            return Ok(false);
        }
    }
    is_met(rt, server, alloc, row, end, Cutting::bytes())
}

/// Returns whether the row with this end holds.
fn holds<R: Threads + Wait + Sync, S: Serves>(
    rt: &R,
    server: &S,
    alloc: Global,
    row: &Row,
    end: End,
) -> Result<bool, RowFault> {
    if row.is_cut && !is_met_cut(rt, server, alloc, row, end)? {
        return Ok(false);
    }
    is_met(rt, server, alloc, row, end, Cutting::none())
}

/// Rows of connections and scripts, which this server serves.
#[derive(Drop)]
pub struct Connections<'a, S> {
    server: &'a S,
    /// The row that was begun.
    row: Row,
}

impl<'a, S: Serves> Connections<'a, S> {
    /// Returns the rows that this server serves, or `Memory` if memory runs out.
    pub fn new(alloc: Global, server: &'a S) -> Result<Connections<'a, S>, RowFault> {
        let row = Row::new(alloc)?;
        Ok(Connections { server, row })
    }

    /// Ends a call of the row, notes whether it was as its lines say, and begins the next one on the files that it left.
    fn go_on<R: Threads + Wait + Sync>(
        &mut self,
        rt: &R,
        alloc: Global,
        end: End,
    ) -> Result<(), RowFault> {
        let is_held = holds(rt, self.server, alloc, &self.row, end)?;
        let left = served(rt, self.server, alloc, &self.row, Cutting::none())?;
        self.row.go_on(alloc, &left.disks, is_held)
    }

    /// Begins the next row. Returns whether the one that ended holds.
    fn end(&mut self, alloc: Global, is_held: bool) -> Result<Option<bool>, RowFault> {
        let is_held = is_held && self.row.is_held;
        self.row = Row::new(alloc)?;
        Ok(Some(is_held))
    }
}

impl<S: Serves> Rows for Connections<'_, S> {
    fn take<R: Threads + Wait + Sync>(
        &mut self,
        rt: &R,
        alloc: Global,
        word: &str,
        rest: &str,
    ) -> Result<Option<bool>, RowFault> {
        if word == "ends" {
            let is_held = holds(rt, self.server, alloc, &self.row, end_in(rest)?)?;
            return self.end(alloc, is_held);
        }
        if word == "unserved" {
            let is_held = is_told(alloc, &self.row, Cutting::none(), true)?;
            return self.end(alloc, is_held);
        }
        if word == "then" {
            self.go_on(rt, alloc, end_in(rest)?)?;
            return Ok(None);
        }
        self.row.take(alloc, word, rest)?;
        Ok(None)
    }
}
