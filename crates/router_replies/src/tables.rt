//! Tables that arrive, and are stored.

ghost use Rattle.std.specs.Prelude.{◌≡◌, ◌≤◌, ℕ, IfSome};
ghost use Rattle.std.specs.Arc.{arc_value};
ghost use Rattle.std.specs.Option.{option_map};
ghost use Rattle.chunk_model.specs.Tables.{table_of};
ghost use Rattle.node_model.specs.RouterNext.{adopted};
ghost use Rattle.router_requests.specs.Fates.{fated};
ghost use Rattle.router_requests.specs.Lists.{opens_of, taken_of};

use chunk_table::Table;
use cluster_base::Namespace;
use route_cache::RouteCache;
use router_requests::{Fate, OpenList};
use std::alloc::Global;
use std::sync::Arc;

/// Returns the table that is known of a collection, if one is.
pub fn known_in<'a>(tables: &'a RouteCache, namespace: &Namespace) -> Option<&'a Table>
    ensures { option_map (λ t. t.now) result ≡ table_of namespace.now tables.now.tables }
{
    match tables.get(namespace) {
        Some(table) => Some(table),
        None => None,
    }
}

/// Stores the table that arrived, if there is one. Takes no memory.
fn adopt_told(tables: &mut RouteCache, told: Option<Arc<Table, Global>>)
    requires { IfSome told (λ t. 1 ≤ tables.old.room) }
    ensures { tables.new.tables ≡ adopted (option_map (λ t. arc_value t) told) tables.old.tables }
{
    match told {
        Some(table) => tables.adopt(table),
        None => {}
    }
}

/// Stores the table that arrived, if there is one, and lets this become of the open requests, in their order. Takes no memory.
pub fn learn(
    tables: &mut RouteCache,
    requests: &mut OpenList,
    told: Option<Arc<Table, Global>>,
    fates: Vec<Fate>,
)
    requires { IfSome told (λ t. 1 ≤ tables.old.room) }
    ensures tables { tables.new.tables ≡ adopted (option_map (λ t. arc_value t) told) tables.old.tables }
    ensures taken { taken_of requests.new ≡ taken_of requests.old }
    ensures opens { (router life : ℕ) → opens_of router life requests.new ≡ fated (opens_of router life requests.old) fates.items }
{
    adopt_told(tables, told);
    requests.settle(fates);
}
