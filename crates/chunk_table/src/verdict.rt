//! What a shard finds where it compares a router's version of a table with its own (MongoDB manual, "Sharded Cluster Query Routing", stale
//! versions).

ghost use Rattle.std.specs.Prelude.{◌≡◌};
ghost use Rattle.std.specs.Option.{option_map};
ghost use Rattle.chunk_model.specs.Verdicts.{sent_by, verdict_of};
ghost use Rattle.chunk_table.specs.VerdictMeanings.{sent_view, verdict_view};

use crate::table::Table;
use crate::version::Version;
use cluster_base::NodeId;

/// What a router sends along.
#[derive(Clone, Copy, Debug, PartialEq, Eq)]
pub struct Sent {
    /// The version of the shard that it sends to.
    pub shard: Version,
    /// The version of the whole table.
    pub collection: Version,
}

impl Sent {
    /// Returns what a router with the table sends to the shard.
    pub fn of(table: &Table, shard: NodeId) -> Sent
        ensures { sent_view result ≡ sent_by table.now shard.0 }
    {
        Sent {
            shard: table.shard_version(shard),
            collection: table.version(),
        }
    }
}

/// What a shard finds.
#[derive(Clone, Copy, Debug, PartialEq, Eq)]
pub enum Verdict {
    /// Both give the shard the same keys.
    Fits,
    /// The shard's table is older than the router's, or it has none.
    ShardOld,
    /// The router's table is older; the version of the shard's whole table.
    RouterOld(Version),
}

/// Returns what a shard with this table, if it has one, finds in what a router sent along.
pub fn check(sent: &Sent, me: NodeId, table: Option<&Table>) -> Verdict
    ensures { verdict_view result ≡ verdict_of (sent_view sent.now) me.0 (option_map (λ t. t.now) table.entry) }
{
    let Some(table) = table else {
        return Verdict::ShardOld;
    };
    let own = table.version();
    if sent.collection.is_later(own) {
        return Verdict::ShardOld;
    }
    if sent.shard.agrees(table.shard_version(me)) {
        return Verdict::Fits;
    }
    Verdict::RouterOld(own)
}
