//! A link over a connection.

ghost use Rattle.std.specs.Prelude.{refl, ◌≡◌, ◌<◌, ◌≤◌, [], length, false, None, IfOk, OnOk, OnErr};
ghost use Rattle.std.specs.Option.{is_none};
ghost use Rattle.outside.specs.Causes.{Rose, next_count};

use outside::disk::Disk;
use outside::streams::{Failed, Link, Sink, Source, Stream};
use outside::witness::{DiskLink, SeenDisk};
use std::io::{Read, Write};

/// A link over a connection. It counts the errors that it meets, those of taking and those of putting; its bytes are not observable. A write of no byte of a
/// non-empty piece is such an error. After an error of putting a part of the piece may have been sent. At the end of what the client sends, and at the first
/// error, the connection is closed: from then on it is at its end, and to put is an error.
#[derive(Drop)]
pub struct TcpLink<S: Read + Write + Drop> {
    stream: Option<S>,
    takes: u64,
    puts: u64,
}

impl<S: Read + Write + Drop> TcpLink<S> {
    /// Returns a link over this connection, with no error met.
    pub fn new(stream: S) -> TcpLink<S>
        ensures takes { result.takes ≡ 0 }
        ensures puts { result.puts ≡ 0 }
    {
        TcpLink {
            stream: Some(stream),
            takes: 0,
            puts: 0,
        }
    }
}

impl<S: Read + Write + Drop> Source for TcpLink<S> {
    ghost tells = { false };

    ghost left = { λ _. [] };

    ghost fault_count = { λ l. l.takes };

    ghost beside = { λ l. ([], l.puts) };

    fn take(&mut self, buf: &mut [u8]) -> Result<usize, Failed>
        ensures count { IfOk result (λ n. n ≤ length buf.old) }
        ensures len { length buf.new ≡ length buf.old }
        ensures cause { OnErr result (Rose self.old.takes self.new.takes) }
        ensures calm { OnOk result (self.new.takes ≡ self.old.takes) }
        ensures later { self.old.takes ≤ self.new.takes }
        ensures aside { self.new.puts ≡ self.old.puts }

        // An error is counted once.
        ensures fault { OnErr result (self.new.takes ≡ next_count self.old.takes) }
    {
        let read = match &mut self.stream {
            Some(stream) => stream.read(buf),
            None => Ok(0),
        };
        match read {
            Ok(0) if !buf.is_empty() => {
                self.stream = None;
                Ok(0)
            }
            Ok(n) => Ok(n),
            Err(_) => {
                self.stream = None;
                self.takes = self.takes.saturating_add(1);
                Err(Failed)
            }
        }
    }
}

impl<S: Read + Write + Drop> Sink for TcpLink<S> {
    ghost tells = { false };

    ghost held = { λ _. [] };

    ghost fault_count = { λ l. l.puts };

    ghost beside = { λ l. ([], l.takes) };

    fn put(&mut self, piece: &[u8]) -> Result<usize, Failed>
        ensures count { IfOk result (λ n. n ≤ length piece.now) }
        ensures some { IfOk result (λ n. 0 < length piece.now → 0 < n) }
        ensures cause { OnErr result (Rose self.old.puts self.new.puts) }
        ensures calm { OnOk result (self.new.puts ≡ self.old.puts) }
        ensures later { self.old.puts ≤ self.new.puts }
        ensures aside { self.new.takes ≡ self.old.takes }

        // An error is counted once.
        ensures fault { OnErr result (self.new.puts ≡ next_count self.old.puts) }
    {
        if piece.is_empty() {
            return Ok(0);
        }
        let written = match &mut self.stream {
            Some(stream) => stream.write(piece),
            None => Ok(0),
        };
        match written {
            Ok(0) | Err(_) => {
                self.stream = None;
                self.puts = self.puts.saturating_add(1);
                Err(Failed)
            }
            Ok(n) => Ok(n),
        }
    }
}

impl<S: Read + Write + Drop> Stream for TcpLink<S> {
    ghost take_is_apart = { λ l. refl };

    ghost take_keeps_notes = { λ l. refl };

    ghost put_is_apart = { λ l. refl };
}

impl<S: Read + Write + Drop> Link for TcpLink<S> {
    ghost is_closed = { λ l. is_none l.stream };

    fn close(&mut self)
        ensures closed { self.new.stream ≡ None }
        ensures takes { self.new.takes ≡ self.old.takes }
        ensures puts { self.new.puts ≡ self.old.puts }
    {
        self.stream = None;
    }
}

impl<S: Read + Write + Drop, D: Disk> DiskLink<D> for TcpLink<S> {
    /// Nothing is kept.
    fn note(&mut self, _seen: &SeenDisk<D>)
        ensures takes { self.new.takes ≡ self.old.takes }
        ensures puts { self.new.puts ≡ self.old.puts }
    {}
}
