//! Sinks, in memory and of the standard library.

use crate::answers::{count_words, failing_calls, push_answer};
use crate::sources::Flaky;
use fixtures::{RowFault, Rows, bytes_of, field};
use outside::standard::StdSink;
use outside::streams::{Failed, Sink};
use outside_memory::MemSink;
use std::alloc::{AllocError, Global};

/// `SINK | FAILING | PIECES | ANSWERS`: the results of writing these pieces, where one call may fail: `failed`, or the number of bytes; and after `:` the
/// sink's content afterwards. It is in memory, or of the standard library over a vector; or it is `flaky`.
#[derive(Drop)]
pub struct Sinks;

impl Rows for Sinks {
    fn holds(&mut self, alloc: Global, row: &str) -> Result<bool, RowFault> {
        let (kind, rest) = field(row);
        let (failing, rest) = field(rest);
        let (pieces, wanted) = field(rest);
        let found = sink_answers(alloc, kind, failing, pieces)?;
        Ok(found.as_str() == wanted)
    }
}

fn sink_answers(
    alloc: Global,
    kind: &str,
    failing: &str,
    pieces: &str,
) -> Result<String, RowFault> {
    match kind {
        "memory" => memory_puts(alloc, failing, pieces),
        "standard" => vector_puts(alloc, pieces),
        "flaky" => puts(alloc, &mut StdSink::new(Flaky { calls: 0 }), pieces),
        _ => Err(RowFault::Form),
    }
}

fn memory_puts(alloc: Global, failing: &str, pieces: &str) -> Result<String, RowFault> {
    let mut sink = MemSink::new(failing_calls(alloc, failing)?);
    let answers = puts(alloc, &mut sink, pieces)?;
    Ok(with_held(alloc, answers.as_str(), sink.bytes())?)
}

fn vector_puts(alloc: Global, pieces: &str) -> Result<String, RowFault> {
    let mut held = Vec::new(alloc);
    let answers = puts(alloc, &mut StdSink::new(&mut held), pieces)?;
    Ok(with_held(alloc, answers.as_str(), held.as_slice())?)
}

fn with_held(alloc: Global, answers: &str, held: &[u8]) -> Result<String, AllocError> {
    let digits = hex::encode(alloc, held)?;
    format!(in alloc; "{answers}: {digits}")
}

/// Returns the results of writing these pieces.
pub fn puts<K: Sink>(alloc: Global, sink: &mut K, pieces: &str) -> Result<String, RowFault> {
    let mut answers = String::new(alloc);
    for piece in pieces.split(", ") {
        let answer = put(alloc, sink, piece)?;
        push_answer(&mut answers, answer.as_str())?;
    }
    Ok(answers)
}

fn put<K: Sink>(alloc: Global, sink: &mut K, piece: &str) -> Result<String, RowFault> {
    let piece = bytes_of(alloc, piece)?;
    let count = match sink.put(piece.as_slice()) {
        Ok(count) => Ok(count as u64),
        Err(Failed) => Err(Failed),
    };
    Ok(count_words(alloc, count)?)
}
