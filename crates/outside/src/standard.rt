//! Implementations over the standard library: any reader and any writer, such as the process's own streams, files as disks, and the system's clock.
ghost use Rattle.std.specs.Prelude.{◌≡◌, ℕ, ◌<◌, ◌≤◌, [], length, take, false, IfOk, OnOk, OnErr};
ghost use Rattle.std.specs.Io.KnownBytes.{Consumes, Appends, IsAtEnd, Keeps};
ghost use Rattle.outside.specs.Causes.{Rose, next_count};

mod file;

use crate::clock::Clock;
use crate::disk::Disk;
use crate::streams::{Failed, Sink, Source};
use crate::witness::Witness;
pub use file::FileDisk;
use std::io::{Read, Write};
use std::rt;
use std::time::{SystemTime, UNIX_EPOCH};

/// A source over a reader. It counts the errors that it meets; its bytes are not observable.
#[derive(Drop)]
pub struct StdSource<R> {
    reader: R,
    faults: u64,
}

impl<R: Read + Drop> StdSource<R> {
    /// Returns a source over this reader, with no error met.
    pub fn new(reader: R) -> StdSource<R>
        ensures reader { result.reader ≡ reader }
        ensures faults { result.faults ≡ 0 }
    {
        StdSource { reader, faults: 0 }
    }
}

impl<R: Read + Drop> Source for StdSource<R> {
    ghost tells = { false };

    ghost left = { λ _. [] };

    ghost fault_count = { λ s. s.faults };

    fn take(&mut self, buf: &mut [u8]) -> Result<usize, Failed>
        ensures count { IfOk result (λ n. n ≤ length buf.old) }
        ensures len { length buf.new ≡ length buf.old }
        ensures cause { OnErr result (Rose self.old.faults self.new.faults) }
        ensures calm { OnOk result (self.new.faults ≡ self.old.faults) }
        ensures later { self.old.faults ≤ self.new.faults }

        // An error is counted once. Where the reader's bytes are observable, no byte is skipped.
        ensures fault { OnErr result (self.new.faults ≡ next_count self.old.faults) }
        ensures read { IfOk result (λ n. Consumes (R.remaining self.old.reader) (R.remaining self.new.reader)
            (take n buf.new)) }
        ensures at_end { IfOk result (λ n. n ≡ 0 → 0 < length buf.old → IsAtEnd (R.remaining self.new.reader)) }
        ensures unread { OnErr result (Keeps (R.remaining self.old.reader) (R.remaining self.new.reader)) }
    {
        match self.reader.read(buf) {
            Ok(n) => Ok(n),
            Err(_) => {
                self.faults = self.faults.saturating_add(1);
                Err(Failed)
            }
        }
    }
}

/// A sink over a writer, which it flushes at each call. It counts the errors that it meets; its bytes are not observable. A write that takes no byte of a
/// non-empty piece is such an error. After an error a part of the piece may have been written.
#[derive(Drop)]
pub struct StdSink<W> {
    writer: W,
    faults: u64,
}

impl<W: Write + Drop> StdSink<W> {
    /// Returns a sink over this writer, with no error met.
    pub fn new(writer: W) -> StdSink<W>
        ensures writer { result.writer ≡ writer }
        ensures faults { result.faults ≡ 0 }
    {
        StdSink { writer, faults: 0 }
    }
}

impl<W: Write + Drop> Sink for StdSink<W> {
    ghost tells = { false };

    ghost held = { λ _. [] };

    ghost fault_count = { λ s. s.faults };

    fn put(&mut self, piece: &[u8]) -> Result<usize, Failed>
        ensures count { IfOk result (λ n. n ≤ length piece.now) }
        ensures some { IfOk result (λ n. 0 < length piece.now → 0 < n) }
        ensures cause { OnErr result (Rose self.old.faults self.new.faults) }
        ensures calm { OnOk result (self.new.faults ≡ self.old.faults) }
        ensures later { self.old.faults ≤ self.new.faults }

        // An error is counted once. Where the writer's bytes are observable, no byte is dropped.
        ensures fault { OnErr result (self.new.faults ≡ next_count self.old.faults) }
        ensures wrote { IfOk result (λ n. Appends (W.contents self.old.writer) (W.contents self.new.writer)
            (take n piece.now)) }
    {
        match write_through(&mut self.writer, piece) {
            Ok(n) => Ok(n),
            Err(Failed) => {
                self.faults = self.faults.saturating_add(1);
                Err(Failed)
            }
        }
    }
}

impl<W: Write + Drop, D: Disk> Witness<D> for StdSink<W> {
    /// It keeps no notes.
    fn note(&mut self, _disk: &D) {}
}

/// Writes bytes from the front of the piece, at least one if it has any, flushes the writer, and returns their number.
///
/// # Errors
/// `Failed` if the write or the flush failed, or if no byte of a non-empty piece was written.
fn write_through<W: Write>(writer: &mut W, piece: &[u8]) -> Result<usize, Failed>
    ensures count { IfOk result (λ n. n ≤ length piece.now) }
    ensures some { IfOk result (λ n. 0 < length piece.now → 0 < n) }
    ensures wrote { IfOk result (λ n. Appends (W.contents writer.old) (W.contents writer.new) (take n piece.now)) }
{
    if piece.is_empty() {
        return Ok(0);
    }
    match writer.write(piece) {
        Ok(0) | Err(_) => Err(Failed),
        Ok(n) => match writer.flush() {
            Ok(()) => Ok(n),
            Err(_) => Err(Failed),
        },
    }
}

/// A clock over the runtime's clock.
#[derive(Drop)]
pub struct WallClock<R> {
    runtime: R,
}

impl<R: rt::Clock + Drop> WallClock<R> {
    /// Returns a clock over this runtime's clock.
    pub fn new(runtime: R) -> WallClock<R>
        ensures { result.runtime ≡ runtime }
    {
        WallClock { runtime }
    }
}

impl<R: rt::Clock + Drop> Clock for WallClock<R> {
    ghost gives = { λ _ _. Unit {0} };

    /// Returns the moment in milliseconds since 1970, at most 2^64 - 1, or 0 if the clock can't be read.
    fn now(&self) -> u64 {
        let Ok(time) = SystemTime::now(&self.runtime) else {
            return 0;
        };
        match time.duration_since(UNIX_EPOCH) {
            Ok(since) => since
                .as_secs()
                .saturating_mul(1000)
                .saturating_add(u64::from(since.subsec_millis())),
            Err(_) => 0,
        }
    }
}
