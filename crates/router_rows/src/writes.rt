//! Outcomes of the statements of writes.

use crate::messages::{delivery, id_of};
use crate::words::{read_key, read_time};
use cluster_base::{Code, NodeId, Time};
use fixtures::{RowFault, number};
use protocol_model::{Body, Done, DoneList, Input, Outcome, StatementOutcome, WriteDone};
use std::alloc::Global;
use std::sync::Arc;

/// Returns the outcome that so many documents were inserted, matched or deleted, and so many changed.
fn changed(count: u32, modified: u32) -> Outcome {
    Outcome {
        count,
        modified,
        upserted: None,
        error: None,
    }
}

/// Returns the outcome that a document with this key was upserted.
fn upserts(alloc: Global, words: &str) -> Result<Outcome, RowFault> {
    let key = Arc::new(alloc, read_key(words)?)?;
    Ok(Outcome {
        count: 1,
        modified: 0,
        upserted: Some(key),
        error: None,
    })
}

/// Returns the error of a statement that has this number.
fn read_code(words: &str) -> Result<Code, RowFault> {
    match words {
        "2" => Ok(Code::BadValue),
        "14" => Ok(Code::TypeMismatch),
        "28" => Ok(Code::PathNotViable),
        "66" => Ok(Code::ImmutableField),
        "10334" => Ok(Code::ObjectTooLarge),
        "11000" => Ok(Code::DuplicateKey),
        _ => Err(RowFault::Form),
    }
}

/// Returns the outcome that is this error.
fn failed(words: &str) -> Result<Outcome, RowFault> {
    let code = read_code(words)?;
    Ok(Outcome {
        count: 0,
        modified: 0,
        upserted: None,
        error: Some(code),
    })
}

/// Returns the outcome of an entry: `COUNT`, `COUNT MODIFIED`, `upserts KEY` or `error CODE`.
fn read_outcome(alloc: Global, words: &str) -> Result<Outcome, RowFault> {
    let Some((first, second)) = words.split_once(' ') else {
        return Ok(changed(number(words)?, 0));
    };
    match first {
        "error" => failed(second),
        "upserts" => upserts(alloc, second),
        _ => Ok(changed(number(first)?, number(second)?)),
    }
}

/// Returns the outcome of a statement: `old TRANSACTION`, or the time of its entry and the outcome of that.
fn read_answer(alloc: Global, words: &str) -> Result<StatementOutcome, RowFault> {
    let Some((first, rest)) = words.split_once(' ') else {
        return Err(RowFault::Form);
    };
    if first == "old" {
        return Ok(StatementOutcome::Older(number(rest)?));
    }
    let time = read_time(first)?;
    let outcome = read_outcome(alloc, rest)?;
    Ok(StatementOutcome::WasDone { time, outcome })
}

fn read_done(alloc: Global, words: &str) -> Result<Done, RowFault> {
    let Some((index, rest)) = words.split_once(' ') else {
        return Err(RowFault::Form);
    };
    let index = number(index)?;
    let answer = read_answer(alloc, rest)?;
    Ok(Done { index, answer })
}

/// Returns the outcomes that the words name, with commas between, each with the index of its statement.
fn read_dones(alloc: Global, words: &str) -> Result<DoneList, RowFault> {
    let mut dones = Vec::new(alloc);
    if words.is_empty() {
        return Ok(dones);
    }
    for outcome in words.split(", ") {
        dones.push(read_done(alloc, outcome)?)?;
    }
    Ok(dones)
}

/// Returns the delivery of outcomes: of the shard and for the request that the words name, `SHARD COUNT`, of the router in its first life.
pub fn done(
    alloc: Global,
    me: NodeId,
    now: Time,
    words: &str,
    outcomes: &str,
) -> Result<Input, RowFault> {
    let Some((shard, count)) = words.split_once(' ') else {
        return Err(RowFault::Form);
    };
    let shard = NodeId(number(shard)?);
    let id = id_of(me, number(count)?);
    let dones = read_dones(alloc, outcomes)?;
    Ok(delivery(shard, me, now, Body::WriteDone(WriteDone { id, dones })))
}
