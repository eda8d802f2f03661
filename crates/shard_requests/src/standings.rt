//! How requests and tables relate to the tables and the time of a shard.

ghost use Rattle.std.specs.Prelude.{◌≡◌, max};
ghost use Rattle.chunk_model.specs.Tables.{table_of};
ghost use Rattle.chunk_table.specs.VerdictMeanings.{sent_view, verdict_view};
ghost use Rattle.chunk_model.specs.Verdicts.{verdict_of};
ghost use Rattle.node_model.specs.ShardRows.{is_news};
ghost use Rattle.protocol_model.specs.Bodies.{body_view};
ghost use Rattle.shard_requests.specs.Standings.{Stands};

use crate::asks::ask_in;
use chunk_table::{Sent, Table, Verdict, Version, check};
use cluster_base::{Namespace, NodeId, Time};
use protocol_model::Body;
use route_cache::RouteCache;

/// How a message relates to the tables that a shard knows.
pub enum Standing {
    /// It requests no documents that depend on a table.
    NoAsk,
    /// It was sent with the table that the shard knows.
    Fits,
    /// The shard's table is older than the one that it was sent with.
    ShardOld,
    /// The shard's table is later than that, and has met this version.
    RouterOld(Version),
}

// Returns what a shard finds in the versions that were sent along, for a collection.
fn verdict_on(me: NodeId, tables: &RouteCache, namespace: &Namespace, sent: &Sent) -> Verdict
    ensures { verdict_view result ≡ verdict_of (sent_view sent.now) me.0 (table_of namespace.now tables.now.tables) }
{
    match tables.get(namespace) {
        Some(table) => {
            let table: &Table = table;
            check(sent, me, Some(table))
        }
        None => check(sent, me, None),
    }
}

/// Returns how a message relates to the tables that a shard knows.
pub fn standing_of(me: NodeId, tables: &RouteCache, body: &Body) -> Standing
    ensures { Stands me.0 tables.now.tables result (body_view body.now) }
{
    let Some(ask) = ask_in(body) else {
        return Standing::NoAsk;
    };
    match verdict_on(me, tables, ask.namespace, &ask.sent) {
        Verdict::Fits => Standing::Fits,
        Verdict::ShardOld => Standing::ShardOld,
        Verdict::RouterOld(met) => Standing::RouterOld(met),
    }
}

/// Returns whether a table is newer than the one that is known: there is none of its collection, or it has seen more changes.
pub fn is_news(tables: &RouteCache, table: &Table) -> bool
    ensures { result ≡ is_news table.now (table_of table.now.namespace tables.now.tables) }
{
    match tables.get(table.namespace()) {
        Some(own) => table.longer_than(own),
        None => true,
    }
}

/// Returns the greater of two times.
pub fn later(own: Time, other: Time) -> Time
    ensures { result.0 ≡ max own.0 other.0 }
{
    Time(own.0.max(other.0))
}
