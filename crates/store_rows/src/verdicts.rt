//! What a shard finds in what a router sent along.

use crate::owners::read_version;
use crate::tables::table_of;
use chunk_table::{Sent, Verdict, check};
use cluster_base::NodeId;
use fixtures::{RowFault, Rows, field, number};
use std::alloc::Global;

/// `SENT | SHARD | TABLE or none | VERDICT`: what the shard with this table finds. What is sent is two versions, of the shard and of
/// the whole, with a comma between, or `by TABLE`; a verdict is `fits`, `shard`, or `router` and the version of the whole.
#[derive(Drop)]
pub struct Verdicts;

impl Rows for Verdicts {
    fn holds(&mut self, alloc: Global, row: &str) -> Result<bool, RowFault> {
        let (sent, rest) = field(row);
        let (shard, rest) = field(rest);
        let (name, verdict) = field(rest);
        let shard = NodeId(number(shard)?);
        let sent = sent_of(alloc, sent, shard)?;
        Ok(found_by(alloc, &sent, shard, name)? == verdict_of(verdict)?)
    }
}

fn sent_of(alloc: Global, words: &str, shard: NodeId) -> Result<Sent, RowFault> {
    if let Some(("by", name)) = words.split_once(' ') {
        return Ok(Sent::of(&table_of(alloc, name)?, shard));
    }
    let Some((own, whole)) = words.split_once(", ") else {
        return Err(RowFault::Form);
    };
    Ok(Sent {
        shard: read_version(own)?,
        collection: read_version(whole)?,
    })
}

fn found_by(alloc: Global, sent: &Sent, shard: NodeId, name: &str) -> Result<Verdict, RowFault> {
    if name == "none" {
        return Ok(check(sent, shard, None));
    }
    let table = table_of(alloc, name)?;
    Ok(check(sent, shard, Some(&table)))
}

fn verdict_of(words: &str) -> Result<Verdict, RowFault> {
    match words {
        "fits" => Ok(Verdict::Fits),
        "shard" => Ok(Verdict::ShardOld),
        _ => router_old(words),
    }
}

fn router_old(words: &str) -> Result<Verdict, RowFault> {
    let Some(("router", version)) = words.split_once(' ') else {
        return Err(RowFault::Form);
    };
    Ok(Verdict::RouterOld(read_version(version)?))
}
