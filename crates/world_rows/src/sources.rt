//! Sources, in memory and of the standard library.
ghost use Rattle.std.specs.Prelude.{◌≡◌, IfOk};

use crate::answers::{buffer_of, failing_calls, push_answer, read_words};
use fixtures::{RowFault, Rows, field};
use outside::standard::StdSource;
use outside::streams::Source;
use outside_memory::MemSource;
use std::alloc::Global;
use std::io::{self, ErrorKind, Read, Write};

/// `SOURCE | FAILING | ROOMS | ANSWERS`: the results of takes into buffers of these sizes, where one call may fail: `failed`, or the number of bytes, with
/// the buffer. The source has the bytes 01 02 03, in memory or of the standard library; or it is `flaky`.
#[derive(Drop)]
pub struct Sources;

impl Rows for Sources {
    fn holds(&mut self, alloc: Global, row: &str) -> Result<bool, RowFault> {
        let (kind, rest) = field(row);
        let (failing, rest) = field(rest);
        let (rooms, wanted) = field(rest);
        let found = source_answers(alloc, kind, failing, rooms)?;
        Ok(found.as_str() == wanted)
    }
}

fn source_answers(
    alloc: Global,
    kind: &str,
    failing: &str,
    rooms: &str,
) -> Result<String, RowFault> {
    match kind {
        "memory" => memory_takes(alloc, failing, rooms),
        "standard" => takes(alloc, &mut StdSource::new([1u8, 2, 3].as_slice()), rooms),
        "flaky" => takes(alloc, &mut StdSource::new(Flaky { calls: 0 }), rooms),
        _ => Err(RowFault::Form),
    }
}

fn memory_takes(alloc: Global, failing: &str, rooms: &str) -> Result<String, RowFault> {
    let bytes = Vec::from_slice(alloc, &[1, 2, 3])?;
    let mut source = MemSource::new(bytes, failing_calls(alloc, failing)?);
    takes(alloc, &mut source, rooms)
}

/// Returns the results of takes into buffers of these sizes.
pub fn takes<S: Source>(alloc: Global, source: &mut S, rooms: &str) -> Result<String, RowFault> {
    let mut answers = String::new(alloc);
    for room in rooms.split(' ') {
        let answer = take(alloc, source, room)?;
        push_answer(&mut answers, answer.as_str())?;
    }
    Ok(answers)
}

fn take<S: Source>(alloc: Global, source: &mut S, room: &str) -> Result<String, RowFault> {
    let mut buffer = buffer_of(alloc, room)?;
    let count = source.take(buffer.as_mut_slice());
    Ok(read_words(alloc, count, buffer.as_slice())?)
}

/// Gives or takes one byte with each call, and fails at the second.
#[derive(Drop)]
pub struct Flaky {
    pub calls: u8,
}

impl Flaky {
    fn call(&mut self) -> io::Result<usize>
        ensures { IfOk result (λ n. n ≡ 1) }
    {
        self.calls = self.calls.saturating_add(1);
        if self.calls == 2 {
            return Err(io::Error::from(ErrorKind::BrokenPipe));
        }
        Ok(1)
    }
}

impl Read for Flaky {
    fn read(&mut self, buf: &mut [u8]) -> io::Result<usize> {
        let Some(first) = buf.first_mut() else {
            return Ok(0);
        };
        *first = b'a';
        self.call()
    }
}

impl Write for Flaky {
    fn write(&mut self, buf: &[u8]) -> io::Result<usize> {
        if buf.is_empty() {
            return Ok(0);
        }
        self.call()
    }

    fn flush(&mut self) -> io::Result<()> {
        Ok(())
    }
}
