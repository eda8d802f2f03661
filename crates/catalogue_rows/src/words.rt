//! What the words of a row are.

ghost use Rattle.std.specs.Prelude.{◌≡◌, IfOk};
ghost use Rattle.chunk_table.specs.Whole.{IsWritableBound};
ghost use Rattle.value_compare.specs.Bounds.{bound_of};
ghost use Rattle.value_compare.specs.Keys.{key_bound};

use bson_values::{Aligned, Value};
use chunk_table::Version;
use cluster_base::{NameFault, Namespace, NodeId, RequestId};
use fixtures::{RowFault, number};
use std::alloc::Global;
use value_compare::{Bound, Key, KeyRange};

/// Returns the namespace of that full name.
pub fn read_namespace(alloc: Global, name: &str) -> Result<Namespace, RowFault> {
    match Namespace::read(alloc, name) {
        Ok(namespace) => Ok(namespace),
        Err(NameFault::Form) => Err(RowFault::Form),
        Err(NameFault::Memory) => Err(RowFault::Memory),
    }
}

/// Returns a key: a number is an int32, and one after `int64` an int64.
pub fn read_key(words: &str) -> Result<Key, RowFault>
    ensures { IfOk result (λ key. IsWritableBound (key_bound key)) }
{
    match words.split_once(' ') {
        Some(("int64", digits)) => long_key(number(digits)?),
        _ => short_key(number(words)?),
    }
}

fn short_key(n: i32) -> Result<Key, RowFault>
    ensures { IfOk result (λ key. IsWritableBound (key_bound key)) }
{
    Key::of(Value::Int32(Aligned::of(n))).map_err(|_value| RowFault::Form)
}

fn long_key(n: i64) -> Result<Key, RowFault>
    ensures { IfOk result (λ key. IsWritableBound (key_bound key)) }
{
    Key::of(Value::Int64(n)).map_err(|_value| RowFault::Form)
}

fn read_bound(words: &str) -> Result<Bound, RowFault>
    ensures { IfOk result (λ b. IsWritableBound (bound_of b)) }
{
    match words {
        "min" => Ok(Bound::MinKey),
        "max" => Ok(Bound::MaxKey),
        _ => Ok(Bound::At(read_key(words)?)),
    }
}

/// Returns a range: two bounds with a comma between, each of them `min`, `max` or a key.
pub fn read_range(words: &str) -> Result<KeyRange, RowFault>
    ensures min { IfOk result (λ r. IsWritableBound r.min) }
    ensures max { IfOk result (λ r. IsWritableBound r.max) }
{
    let Some((min, max)) = words.split_once(", ") else {
        return Err(RowFault::Form);
    };
    let min = read_bound(min)?;
    let max = read_bound(max)?;
    match KeyRange::new(min, max) {
        Some(range) => Ok(range),
        None => Err(RowFault::Form),
    }
}

// Returns the three numbers of some words.
fn three(words: &str) -> Result<(u64, u64, u64), RowFault> {
    let Some((first, rest)) = words.split_once(' ') else {
        return Err(RowFault::Form);
    };
    let Some((second, third)) = rest.split_once(' ') else {
        return Err(RowFault::Form);
    };
    Ok((number(first)?, number(second)?, number(third)?))
}

/// Returns a version: an epoch, a major and a minor number.
pub fn read_version(words: &str) -> Result<Version, RowFault> {
    let (epoch, major, minor) = three(words)?;
    Ok(Version {
        epoch,
        major,
        minor,
    })
}

/// Returns the id of a move: a router, its life, and the number of a request.
pub fn read_id(words: &str) -> Result<RequestId, RowFault> {
    let (router, life, count) = three(words)?;
    let Ok(router) = u32::try_from(router) else {
        return Err(RowFault::Form);
    };
    Ok(RequestId {
        router: NodeId(router),
        life,
        count,
    })
}

/// Returns two shards.
pub fn read_shards(words: &str) -> Result<(NodeId, NodeId), RowFault> {
    let Some((from, to)) = words.split_once(' ') else {
        return Err(RowFault::Form);
    };
    Ok((NodeId(number(from)?), NodeId(number(to)?)))
}
