//! A line that is read.

ghost use Rattle.std.specs.Prelude.{◌≡◌, ℕ, List, ◌++◌, ◌∷◌, codes, IfOk, Err};
ghost use Rattle.script_lines.specs.Kinds.{IsKind};
ghost use Rattle.script_lines.specs.Lines as said;
ghost use Rattle.script_lines.specs.Lines.{Says};
ghost use Rattle.script_lines.specs.Meanings.{meaning_of};
ghost use Rattle.script_lines.specs.Words.{HasNone, IsHex, IsNumber};
ghost use Rattle.script_lines.specs.declared.line.LineFault.TheVariants as faults;

use crate::kinds::is_kind;
use crate::words::{cut_at, number_of, numbers_of};
use hex::FromHexError;
use std::alloc::Global;

/// A line of a script. A kind is that of a message, as it is named in the line.
#[derive(Drop)]
pub enum Line {
    /// The bytes come to a router's link.
    Client { router: u64, bytes: Vec<u8> },
    /// The k-th message, from 0, that was ever sent to the node is delivered.
    Deliver { node: u64, k: u64 },
    /// The node is given the moment.
    Moment { node: u64, moment: u64 },
    /// What was not delivered is delivered.
    Settle,
    /// What was not delivered is delivered, except messages of the kind.
    SettleExcept { kind: Vec<u8> },
    /// The earliest message of the kind that was not delivered is delivered.
    Next { kind: Vec<u8> },
    /// The node stops between two steps, and is started again on its journal.
    Restart { node: u64 },
    /// It stops in the step that delivers the k-th message to it, whose records are stored.
    RestartKept { node: u64, k: u64 },
    /// It stops in that step, before its records are stored.
    RestartLost { node: u64, k: u64 },
}

/// Why a line is not read.
#[derive(Clone, Copy, Debug, PartialEq, Eq)]
pub enum LineFault {
    /// The bytes say no line.
    Refused,
    /// Out of memory.
    Memory,
}

/// Returns the line that bytes encode, without its newline.
///
/// # Errors
/// - `LineFault::Refused` if they encode none.
/// - `LineFault::Memory` if out of memory.
pub fn read_line(alloc: Global, line: &[u8]) -> Result<Line, LineFault>
    ensures says { IfOk result (λ read. Says line.now (meaning_of read)) }
    ensures refused { result ≡ Err faults.Refused → (other : said.Line) → ¬ Says line.now other }
{
    let Some((word, rest)) = cut_at(b' ', line) else {
        return settle_of(line);
    };
    if word == b"client".as_slice() {
        return client_of(alloc, rest);
    }
    if word == b"deliver".as_slice() {
        return deliver_of(rest);
    }
    if word == b"moment".as_slice() {
        return moment_of(rest);
    }
    if word == b"settle".as_slice() {
        return except_of(alloc, rest);
    }
    if word == b"next".as_slice() {
        return next_of(alloc, rest);
    }
    if word == b"restart".as_slice() {
        return restart_of(rest);
    }
    Err(LineFault::Refused)
}

/// Returns the line of bytes without a space.
fn settle_of(line: &[u8]) -> Result<Line, LineFault>
    requires { HasNone 32 line.now }
    ensures says { IfOk result (λ read. Says line.now (meaning_of read)) }
    ensures refused { result ≡ Err faults.Refused → (other : said.Line) → ¬ Says line.now other }
{
    if line == b"settle".as_slice() {
        Ok(Line::Settle)
    } else {
        Err(LineFault::Refused)
    }
}

/// Returns the line of a word `client` and what comes after it.
fn client_of(alloc: Global, rest: &[u8]) -> Result<Line, LineFault>
    ensures says { IfOk result (λ read. Says (codes "client" ++ 32 ∷ rest.now) (meaning_of read)) }
    ensures refused { result ≡ Err faults.Refused → (other : said.Line) → ¬ Says (codes "client" ++ 32 ∷ rest.now) other }
{
    let Some((first, second)) = cut_at(b' ', rest) else {
        return Err(LineFault::Refused);
    };
    let Some(router) = number_of(first) else {
        return Err(LineFault::Refused);
    };
    match bytes_of(alloc, second) {
        Ok(bytes) => Ok(Line::Client { router, bytes }),
        Err(e) => Err(e),
    }
}

/// Returns the line of a word `deliver` and what comes after it.
fn deliver_of(rest: &[u8]) -> Result<Line, LineFault>
    ensures says { IfOk result (λ read. Says (codes "deliver" ++ 32 ∷ rest.now) (meaning_of read)) }
    ensures refused { result ≡ Err faults.Refused → (other : said.Line) → ¬ Says (codes "deliver" ++ 32 ∷ rest.now) other }
{
    match numbers_of(rest) {
        Some((node, k)) => Ok(Line::Deliver { node, k }),
        None => Err(LineFault::Refused),
    }
}

/// Returns the line of a word `moment` and what comes after it.
fn moment_of(rest: &[u8]) -> Result<Line, LineFault>
    ensures says { IfOk result (λ read. Says (codes "moment" ++ 32 ∷ rest.now) (meaning_of read)) }
    ensures refused { result ≡ Err faults.Refused → (other : said.Line) → ¬ Says (codes "moment" ++ 32 ∷ rest.now) other }
{
    match numbers_of(rest) {
        Some((node, moment)) => Ok(Line::Moment { node, moment }),
        None => Err(LineFault::Refused),
    }
}

/// Returns the line of a word `settle` and what comes after it.
fn except_of(alloc: Global, rest: &[u8]) -> Result<Line, LineFault>
    ensures says { IfOk result (λ read. Says (codes "settle" ++ 32 ∷ rest.now) (meaning_of read)) }
    ensures refused { result ≡ Err faults.Refused → (other : said.Line) → ¬ Says (codes "settle" ++ 32 ∷ rest.now) other }
{
    let Some((first, second)) = cut_at(b' ', rest) else {
        return Err(LineFault::Refused);
    };
    if first == b"except".as_slice() {
        return match kind_of(alloc, second) {
            Ok(kind) => Ok(Line::SettleExcept { kind }),
            Err(e) => Err(e),
        };
    }
    Err(LineFault::Refused)
}

/// Returns the line of a word `next` and what comes after it.
fn next_of(alloc: Global, rest: &[u8]) -> Result<Line, LineFault>
    ensures says { IfOk result (λ read. Says (codes "next" ++ 32 ∷ rest.now) (meaning_of read)) }
    ensures refused { result ≡ Err faults.Refused → (other : said.Line) → ¬ Says (codes "next" ++ 32 ∷ rest.now) other }
{
    match kind_of(alloc, rest) {
        Ok(kind) => Ok(Line::Next { kind }),
        Err(e) => Err(e),
    }
}

/// Returns the line of a word `restart` and what comes after it.
fn restart_of(rest: &[u8]) -> Result<Line, LineFault>
    ensures says { IfOk result (λ read. Says (codes "restart" ++ 32 ∷ rest.now) (meaning_of read)) }
    ensures refused { result ≡ Err faults.Refused → (other : said.Line) → ¬ Says (codes "restart" ++ 32 ∷ rest.now) other }
{
    let Some((first, words)) = cut_at(b' ', rest) else {
        return match number_of(rest) {
            Some(node) => Ok(Line::Restart { node }),
            None => Err(LineFault::Refused),
        };
    };
    match number_of(first) {
        Some(node) => stop_of(first, node, words),
        None => Err(LineFault::Refused),
    }
}

/// Returns the line of a word `restart`, a word that is this node's number, and what comes after both.
fn stop_of(first: &[u8], node: u64, words: &[u8]) -> Result<Line, LineFault>
    requires { IsNumber first.now node }
    ensures says { IfOk result (λ read. Says (codes "restart" ++ 32 ∷ (first.now ++ 32 ∷ words.now)) (meaning_of read)) }
    ensures refused { result ≡ Err faults.Refused → (other : said.Line) → ¬ Says (codes "restart" ++ 32 ∷ (first.now ++ 32 ∷ words.now)) other }
{
    let Some((word, last)) = cut_at(b' ', words) else {
        return Err(LineFault::Refused);
    };
    let Some(k) = number_of(last) else {
        return Err(LineFault::Refused);
    };
    if word == b"kept".as_slice() {
        return Ok(Line::RestartKept { node, k });
    }
    if word == b"lost".as_slice() {
        return Ok(Line::RestartLost { node, k });
    }
    Err(LineFault::Refused)
}

/// Returns the bytes that a word encodes in hexadecimal.
fn bytes_of(alloc: Global, word: &[u8]) -> Result<Vec<u8>, LineFault>
    ensures is { IfOk result (λ bytes. IsHex word.now bytes.items) }
    ensures refused { result ≡ Err faults.Refused → (bytes : List ℕ) → ¬ IsHex word.now bytes }
{
    if word.is_empty() {
        return Err(LineFault::Refused);
    }
    match hex::decode(alloc, word) {
        Ok(bytes) => Ok(bytes),
        Err(FromHexError::OutOfMemory) => Err(LineFault::Memory),
        Err(_) => Err(LineFault::Refused),
    }
}

/// Returns the kind that a word names.
fn kind_of(alloc: Global, word: &[u8]) -> Result<Vec<u8>, LineFault>
    ensures is { IfOk result (λ kind. (kind.items ≡ word.now) × IsKind word.now) }
    ensures refused { result ≡ Err faults.Refused → ¬ IsKind word.now }
{
    if !is_kind(word) {
        return Err(LineFault::Refused);
    }
    match Vec::from_slice(alloc, word) {
        Ok(kind) => Ok(kind),
        Err(_) => Err(LineFault::Memory),
    }
}
