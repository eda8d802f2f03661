//! Refusals of what the router requested.

use crate::messages::{PartOf, delivery, id_of};
use crate::words::{read_namespace, read_time};
use chunk_table::Version;
use cluster_base::{NodeId, Time};
use fixtures::{RowFault, number};
use protocol_model::{About, At, Body, Cause, Input, Lack, Refused};
use std::alloc::Global;

/// The catalogue.
const CATALOGUE: NodeId = NodeId(0);

/// Returns the version `EPOCH MAJOR`, before any split.
fn read_version(words: &str) -> Result<Version, RowFault> {
    let Some((epoch, major)) = words.split_once(' ') else {
        return Err(RowFault::Form);
    };
    Ok(Version {
        epoch: number(epoch)?,
        major: number(major)?,
        minor: 0,
    })
}

/// Returns why a node refuses: `memory`, `steps COUNT`, or `stale EPOCH MAJOR`, the version of its table.
fn read_cause(node: NodeId, words: &str) -> Result<Cause, RowFault> {
    if words == "memory" {
        return Ok(Cause::Lack {
            node,
            lack: Lack::Memory,
        });
    }
    let Some((word, rest)) = words.split_once(' ') else {
        return Err(RowFault::Form);
    };
    match word {
        "steps" => Ok(Cause::Lack {
            node,
            lack: Lack::Steps {
                steps: number(rest)?,
            },
        }),
        "stale" => Ok(Cause::Stale {
            met: read_version(rest)?,
        }),
        _ => Err(RowFault::Form),
    }
}

/// Returns what was sent to a node for a request, in a turn, and its first statement: `NODE COUNT TURN FIRST`.
fn read_about(words: &str) -> Result<(PartOf, u32), RowFault> {
    let Some((node, rest)) = words.split_once(' ') else {
        return Err(RowFault::Form);
    };
    let Some((count, rest)) = rest.split_once(' ') else {
        return Err(RowFault::Form);
    };
    let Some((turn, first)) = rest.split_once(' ') else {
        return Err(RowFault::Form);
    };
    let of = PartOf {
        shard: NodeId(number(node)?),
        count: number(count)?,
        turn: number(turn)?,
    };
    Ok((of, number(first)?))
}

/// Returns the delivery of a refusal of what the words name, of the router in its first life.
pub fn refused(me: NodeId, now: Time, words: &str, cause: &str) -> Result<Input, RowFault> {
    let (of, first) = read_about(words)?;
    let about = About::Request {
        id: id_of(me, of.count),
        turn: of.turn,
        first,
    };
    let cause = read_cause(of.shard, cause)?;
    let body = Body::Refused(Refused { about, cause });
    Ok(delivery(of.shard, me, now, body))
}

/// Returns for what a table was requested: `create`, for a write; `plain`, for a shard; or the time of a read.
fn read_kind(words: &str) -> Result<(bool, At), RowFault> {
    match words {
        "create" => Ok((true, At::NoTime)),
        "plain" => Ok((false, At::NoTime)),
        _ => Ok((false, At::Time(read_time(words)?))),
    }
}

/// Returns the delivery of a refusal of a request for the table of `d.c`, by the catalogue.
pub fn no_table(
    alloc: Global,
    me: NodeId,
    now: Time,
    words: &str,
    cause: &str,
) -> Result<Input, RowFault> {
    let (create, at) = read_kind(words)?;
    let about = About::Table {
        namespace: read_namespace(alloc, "d.c")?,
        create,
        at,
    };
    let cause = read_cause(CATALOGUE, cause)?;
    let body = Body::Refused(Refused { about, cause });
    Ok(delivery(CATALOGUE, me, now, body))
}
