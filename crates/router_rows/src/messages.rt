//! Messages to the router.

ghost use Rattle.std.specs.Prelude.{IfOk, IfSome};
ghost use Rattle.chunk_table.specs.Whole.{IsWritableBound};
ghost use Rattle.value_compare.specs.Keys.{key_bound};

use crate::words::{read_documents, read_key, read_namespace};
use chunk_table::{Owned, Table};
use cluster_base::{Namespace, NodeId, RequestId, Time};
use fixtures::{RowFault, number};
use pipeline_eval::{PartCount, Rows};
use protocol_model::{At, Body, HalfFault, Input, Message, ReadRows, TableTold, TimeTold};
use std::alloc::Global;
use std::sync::Arc;
use value_compare::{Bound, Key, KeyRange};

/// The catalogue, the first shard and the second.
const CATALOGUE: NodeId = NodeId(0);

const LOWER: NodeId = NodeId(1);

const UPPER: NodeId = NodeId(2);

/// The collection was created at Timestamp(0, 1), split at Timestamp(0, 2), and the upper chunk moved at this time and at those after it.
const CREATED: Time = Time(1);

const MOVED: u64 = 3;

/// Returns the keys from this one on.
fn upper_range(key: Key) -> Result<KeyRange, RowFault> {
    match KeyRange::new(Bound::At(key), Bound::MaxKey) {
        Some(range) => Ok(range),
        None => Err(RowFault::Form),
    }
}

/// Returns the table after the chunk of this range, which is the first shard's, moved to the second one, and then so many times from one to the other.
fn moved_on(alloc: Global, table: Table, range: &KeyRange, more: u32) -> Result<Table, RowFault> {
    let mut table = table;
    let mut donor = LOWER;
    let mut shard = UPPER;
    for count in 0..=more {
        let owned = Owned {
            valid_after: Time(MOVED + u64::from(count)),
            shard,
        };
        table = table.moved(alloc, range, donor, owned)?;
        (donor, shard) = (shard, donor);
    }
    Ok(table)
}

/// Returns the table of a collection whose keys below this one are the first shard's, and all others the second's, or after so many moves more the first's
/// or the second's.
fn table_of_two(
    alloc: Global,
    namespace: Namespace,
    middle: Key,
    more: u32,
) -> Result<Table, RowFault>
    requires { IsWritableBound (key_bound middle) }
{
    let first = Table::first(alloc, namespace, 1, CREATED)?;
    let Some(split) = first.split(alloc, &middle)? else {
        return Err(RowFault::Form);
    };
    let range = upper_range(middle)?;
    moved_on(alloc, split, &range, more)
}

/// Returns how many moves more the words name; none where there are no words.
fn read_moves(words: &str) -> Result<u32, RowFault> {
    if words.is_empty() {
        Ok(0)
    } else {
        number(words)
    }
}

/// Returns the delivery of a message to the router.
pub fn delivery(sender: NodeId, receiver: NodeId, time: Time, body: Body) -> Input {
    Input::Deliver(Message {
        sender,
        receiver,
        time,
        body,
    })
}

/// Returns the delivery of the table of `d.c`, as the answer to a request for it: the upper chunk has the keys from that of the words on, and moved so many
/// times more.
fn table_told(
    alloc: Global,
    me: NodeId,
    now: Time,
    words: &str,
    more: &str,
    create: bool,
    at: At,
) -> Result<Input, RowFault> {
    let key = read_key(words)?;
    let table = table_of_two(alloc, read_namespace(alloc, "d.c")?, key, read_moves(more)?)?;
    let body = TableTold {
        namespace: read_namespace(alloc, "d.c")?,
        create,
        at,
        table: Some(Arc::new(alloc, table)?),
    };
    Ok(delivery(CATALOGUE, me, now, Body::TableTold(body)))
}

/// Returns the delivery of that table to a read of the router's time.
pub fn told(
    alloc: Global,
    me: NodeId,
    now: Time,
    words: &str,
    more: &str,
) -> Result<Input, RowFault> {
    table_told(alloc, me, now, words, more, false, At::Time(now))
}

/// Returns the delivery of that table to a write, which created the collection where there was none.
pub fn begun(
    alloc: Global,
    me: NodeId,
    now: Time,
    words: &str,
    more: &str,
) -> Result<Input, RowFault> {
    table_told(alloc, me, now, words, more, true, At::NoTime)
}

/// A part of a read: the shard that returns it, the count of the request, and its turn.
#[derive(Clone, Copy)]
pub struct PartOf {
    pub shard: NodeId,
    pub count: u64,
    pub turn: u32,
}

/// Returns the part that words name: `SHARD COUNT TURN`.
pub fn read_part(words: &str) -> Result<PartOf, RowFault> {
    let Some((shard, rest)) = words.split_once(' ') else {
        return Err(RowFault::Form);
    };
    let Some((count, turn)) = rest.split_once(' ') else {
        return Err(RowFault::Form);
    };
    Ok(PartOf {
        shard: NodeId(number(shard)?),
        count: number(count)?,
        turn: number(turn)?,
    })
}

/// Returns the id of the request with this count, of the router in its first life.
pub fn id_of(me: NodeId, count: u64) -> RequestId {
    RequestId {
        router: me,
        life: 1,
        count,
    }
}

/// Returns the delivery of a part of a read, of the router in its first life.
fn part(me: NodeId, now: Time, of: PartOf, rows: Result<Rows, HalfFault>) -> Input {
    let body = ReadRows {
        id: id_of(me, of.count),
        turn: of.turn,
        rows,
    };
    delivery(of.shard, me, now, Body::ReadRows(body))
}

/// Returns the delivery of these documents as a part of a read.
pub fn shown(
    alloc: Global,
    me: NodeId,
    now: Time,
    of: PartOf,
    words: &str,
) -> Result<Input, RowFault> {
    let documents = read_documents(alloc, words)?;
    Ok(part(me, now, of, Ok(Rows::Docs(documents))))
}

/// Returns the delivery of a number of documents as a part of a read.
pub fn counted(me: NodeId, now: Time, of: PartOf, words: &str) -> Result<Input, RowFault> {
    match PartCount::of(number(words)?) {
        Some(count) => Ok(part(me, now, of, Ok(Rows::Counted(count)))),
        None => Err(RowFault::Form),
    }
}

/// Returns the delivery of a part of a read that has no rows: `overflow`, or the number of bytes that are too many.
pub fn failed(me: NodeId, now: Time, of: PartOf, words: &str) -> Result<Input, RowFault> {
    let fault = match words {
        "overflow" => HalfFault::Overflow,
        _ => HalfFault::TooMuch {
            bytes: number(words)?,
        },
    };
    Ok(part(me, now, of, Err(fault)))
}

/// Returns the delivery of a shard's time, for the request that the words name, `SHARD COUNT`.
pub fn reached(me: NodeId, now: Time, words: &str) -> Result<Input, RowFault> {
    let Some((shard, count)) = words.split_once(' ') else {
        return Err(RowFault::Form);
    };
    let shard = NodeId(number(shard)?);
    let id = id_of(me, number(count)?);
    Ok(delivery(shard, me, now, Body::TimeTold(TimeTold { id })))
}
