//! What the framer returns for bytes, in lines.

use crate::commands::put_command;
use crate::pieces::Cutting;
use bson_values::BsonFault;
use opmsg_frames::{Body, Form, FrameFault, Framer, Malformed, Request};
use row_disks::{RowFault, put_line};
use std::alloc::{AllocError, Global};

/// What the framer returned: a request, nothing, or a fault.
#[derive(Clone, Copy, Debug, PartialEq, Eq)]
enum Next {
    Request,
    Nothing,
    Fault,
}

/// What the framer returned: a line for each request, and the requests' bytes, one after another; `as_query`: as if each arrived in an OP_QUERY.
#[derive(Drop)]
struct RequestLines {
    lines: String,
    bytes: Vec<u8>,
    as_query: bool,
}

/// The smallest request.
const LEAST: &[u8] = b"\x1a\0\0\0\x01\0\0\0\0\0\0\0\xdd\x07\0\0\0\0\0\0\0\x05\0\0\0\0";

fn malformed_word(fault: Malformed) -> &'static str {
    match fault {
        Malformed::BadLength => "bad-length",
        Malformed::TooLong => "too-long",
        Malformed::BadOpcode => "bad-opcode",
        Malformed::BadFlags => "bad-flags",
        Malformed::BadKind => "bad-kind",
        Malformed::BadSection => "bad-section",
        Malformed::TwoBodies => "two-bodies",
        Malformed::NoBody => "no-body",
        Malformed::BadQuery => "bad-query",
    }
}

fn document_word(fault: &BsonFault) -> &'static str {
    match fault {
        BsonFault::Short { .. } => "short",
        BsonFault::BadLength { .. } => "bad-length",
        BsonFault::BadType { .. } => "bad-type",
        BsonFault::BadText { .. } => "bad-text",
        BsonFault::BadBool { .. } => "bad-bool",
        BsonFault::Deep { .. } => "deep",
        BsonFault::Trailing { .. } => "trailing",
        BsonFault::Memory => "memory",
    }
}

/// Returns the type that is not supported, of a fault that has one.
fn type_byte(fault: &BsonFault) -> u8 {
    match fault {
        BsonFault::BadType { byte, .. } => *byte,
        _ => 0,
    }
}

/// Appends the fault of a document: its word, its offset and the type that is not supported, or 0.
fn put_fault(line: &mut String, fault: &BsonFault) -> Result<(), AllocError> {
    let word = document_word(fault);
    let offset = fault.place().unwrap_or(0);
    let byte = type_byte(fault);
    write!(line, " {word} {offset} {byte}")
}

fn form_word(form: Form) -> &'static str {
    match form {
        Form::Msg => "msg",
        Form::Query => "query",
    }
}

/// Appends what the line of a request has before its command.
fn put_head(line: &mut String, request: &Request) -> Result<(), AllocError> {
    let id = request.id;
    let form = form_word(request.form);
    let more = if request.more { " more" } else { "" };
    write!(line, "{id} {form}{more}")?;
    match &request.body {
        Body::Read { .. } => Ok(()),
        Body::Faulty(fault) => put_fault(line, fault),
    }
}

/// What the framer returned and is told of.
trait Framed {
    /// Appends its line and its bytes.
    fn tell(&self, alloc: Global, told: &mut RequestLines) -> Result<(), RowFault>;
}

impl Framed for Request {
    fn tell(&self, alloc: Global, told: &mut RequestLines) -> Result<(), RowFault> {
        put_head(&mut told.lines, self)?;
        told.lines.push_str(" = ")?;
        put_command(alloc, &mut told.lines, self)?;
        put_line(&mut told.lines, "")?;
        told.bytes.extend_from_slice(self.bytes())?;
        Ok(())
    }
}

/// Appends the line of a request. It is let go here, in a function of any type: the drop of a request is long to prove.
fn put_request<T: Framed + Drop>(
    alloc: Global,
    told: &mut RequestLines,
    request: T,
) -> Result<Next, RowFault> {
    request.tell(alloc, told)?;
    Ok(Next::Request)
}

/// Returns the request, as if it arrived in an OP_QUERY.
fn as_query(request: Request) -> Request {
    let mut request = request;
    request.form = Form::Query;
    request
}

/// Appends the line of bytes that are not a request, if there are any.
fn put_rest(line: &mut String, count: usize) -> Result<(), AllocError> {
    if count == 0 {
        return Ok(());
    }
    writeln!(line, "rest {count}")
}

/// Appends the line of a fault, and another one where the framer does not return it again after more bytes.
fn put_malformed(
    told: &mut RequestLines,
    framer: &mut Framer,
    fault: FrameFault,
) -> Result<Next, RowFault> {
    let FrameFault::Malformed { fault: why, place } = fault else {
        return Err(RowFault::Memory);
    };
    let word = malformed_word(why);
    writeln!(told.lines, "fault {word} {place}")?;
    framer.feed(LEAST)?;
    if framer.next().err() != Some(fault) {
        put_line(&mut told.lines, "forgotten")?;
    }
    Ok(Next::Fault)
}

/// Appends the line of what the framer returns next, if that is a request or a fault. Returns which of these it was.
fn put_next(alloc: Global, told: &mut RequestLines, framer: &mut Framer) -> Result<Next, RowFault> {
    match framer.next() {
        Ok(Some(request)) if told.as_query => put_request(alloc, told, as_query(request)),
        Ok(Some(request)) => put_request(alloc, told, request),
        Ok(None) => Ok(Next::Nothing),
        Err(fault) => put_malformed(told, framer, fault),
    }
}

/// Appends the lines of all that the framer returns after the piece. Returns whether there was no fault.
fn put_piece(
    alloc: Global,
    told: &mut RequestLines,
    framer: &mut Framer,
    piece: &[u8],
) -> Result<bool, RowFault> {
    framer.feed(piece)?;
    for _ in 0..u64::MAX {
        match put_next(alloc, told, framer)? {
            Next::Request => {}
            Next::Nothing => return Ok(true),
            Next::Fault => return Ok(false),
        }
    }
    Ok(true)
}

/// Appends the lines of the bytes, in pieces of at most this length. Returns whether there was no fault.
fn put_pieces(
    alloc: Global,
    told: &mut RequestLines,
    framer: &mut Framer,
    bytes: &[u8],
    most: usize,
) -> Result<bool, RowFault> {
    for piece in bytes.chunks(most.max(1)) {
        if !put_piece(alloc, told, framer, piece)? {
            return Ok(false);
        }
    }
    Ok(true)
}

/// Returns whether the bytes are the prefix and the rest.
fn are_joined(bytes: &[u8], prefix: &[u8], rest: &[u8]) -> bool {
    match bytes.strip_prefix(prefix) {
        Some(behind) => behind == rest,
        None => false,
    }
}

/// Appends what follows the requests, and another line where their bytes and the rest are not those that arrived.
fn put_end(told: &mut RequestLines, bytes: &[u8], rest: &[u8]) -> Result<(), RowFault> {
    put_rest(&mut told.lines, rest.len())?;
    if are_joined(bytes, &told.bytes, rest) {
        return Ok(());
    }
    put_line(&mut told.lines, "other bytes")
}

/// Appends the lines of the bytes in these pieces.
fn put_all(
    alloc: Global,
    told: &mut RequestLines,
    framer: &mut Framer,
    bytes: &[u8],
    cutting: Cutting,
) -> Result<(), RowFault> {
    let (prefix, back) = bytes.split_at(cutting.first.min(bytes.len()));
    if !put_piece(alloc, told, framer, prefix)? {
        return Ok(());
    }
    if !put_pieces(alloc, told, framer, back, cutting.later)? {
        return Ok(());
    }
    put_end(told, bytes, framer.rest())
}

/// Appends the lines of the bytes in these pieces, by a new framer.
fn put_framed(
    alloc: Global,
    told: &mut RequestLines,
    bytes: &[u8],
    cutting: Cutting,
) -> Result<(), RowFault> {
    let mut framer = Framer::new(alloc);
    put_all(alloc, told, &mut framer, bytes, cutting)
}

/// Returns what the framer and the commands return for the bytes in these pieces, a line for each request and for what follows them; `as_query`: as if each
/// request arrived in an OP_QUERY.
pub fn told_of(
    alloc: Global,
    bytes: &[u8],
    cutting: Cutting,
    as_query: bool,
) -> Result<String, RowFault> {
    let mut told = RequestLines {
        lines: String::new(alloc),
        bytes: Vec::new(alloc),
        as_query,
    };
    put_framed(alloc, &mut told, bytes, cutting)?;
    Ok(told.lines)
}
