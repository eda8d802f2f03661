//! Sessions, requests, namespaces, keys and spans in few words.

use bson_values::{Aligned, Value};
use cluster_base::{NameFault, Namespace, NodeId, RequestId, Session, Stmt};
use fixtures::{RowFault, number};
use std::alloc::Global;
use value_compare::{Bound, Key, KeyRange, Span};

/// Returns the number of a statement: `SESSION TXN INDEX`. Returns `Form` where the words are none.
pub fn statement_of(words: &str) -> Result<Stmt, RowFault> {
    let (session, rest) = word(words);
    let (txn, index) = word(rest);
    Ok(Stmt {
        session: session_of(session)?,
        txn: number(txn)?,
        index: number(index)?,
    })
}

/// Returns the session of the word: a number from 0 to 255 is a client's, whose identifier has 16 of that byte; `NODE.LIFE.REQUEST` is a
/// router's. Returns `Form` where it is neither.
pub fn session_of(word: &str) -> Result<Session, RowFault> {
    match word.split_once('.') {
        None => Ok(Session::Client([number(word)?; 16])),
        Some((node, rest)) => router_session(node, rest),
    }
}

fn router_session(node: &str, rest: &str) -> Result<Session, RowFault> {
    let Some((life, request)) = rest.split_once('.') else {
        return Err(RowFault::Form);
    };
    Ok(Session::Router {
        node: NodeId(number(node)?),
        life: number(life)?,
        request: number(request)?,
    })
}

/// Returns the request of the words `ROUTER LIFE COUNT`. Returns `Form` where they are none.
pub fn request_of(words: &str) -> Result<RequestId, RowFault> {
    let (router, rest) = word(words);
    let (life, count) = word(rest);
    Ok(RequestId {
        router: NodeId(number(router)?),
        life: number(life)?,
        count: number(count)?,
    })
}

/// Returns the namespace of the full name. Returns `Form` where it is none, and `Memory` if memory runs out.
pub fn namespace_of(alloc: Global, name: &str) -> Result<Namespace, RowFault> {
    match Namespace::read(alloc, name) {
        Ok(namespace) => Ok(namespace),
        Err(NameFault::Form) => Err(RowFault::Form),
        Err(NameFault::Memory) => Err(RowFault::Memory),
    }
}

/// Returns the span of the word: a number is that key, an int32, and `MIN..MAX` a range. Returns `Form` where it is neither.
pub fn span_of(word: &str) -> Result<Span, RowFault> {
    match word.split_once("..") {
        None => Ok(Span::Point(key_of(word)?)),
        Some((min, max)) => Ok(Span::Range(range_of(min, max)?)),
    }
}

/// Returns the range between the bounds, of which each is `min`, `max` or a key. Returns `Form` where there is none.
pub fn range_of(min: &str, max: &str) -> Result<KeyRange, RowFault> {
    let min = bound_of(min)?;
    let max = bound_of(max)?;
    match KeyRange::new(min, max) {
        Some(range) => Ok(range),
        None => Err(RowFault::Form),
    }
}

fn bound_of(word: &str) -> Result<Bound, RowFault> {
    match word {
        "min" => Ok(Bound::MinKey),
        "max" => Ok(Bound::MaxKey),
        _ => Ok(Bound::At(key_of(word)?)),
    }
}

fn key_of(word: &str) -> Result<Key, RowFault> {
    Key::of(Value::Int32(Aligned::of(number(word)?))).map_err(|_value| RowFault::Form)
}

/// Returns the first word, and those after it; these are empty where it is the last.
pub fn word(words: &str) -> (&str, &str) {
    match words.split_once(' ') {
        Some((first, rest)) => (first, rest),
        None => (words, ""),
    }
}
