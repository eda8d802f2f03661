//! The longest table of each collection.

ghost use Rattle.std.specs.Prelude.{◌≡◌, ◌≤◌, [], OnOk};
ghost use Rattle.std.specs.Arc.{arc_value};
ghost use Rattle.std.specs.Option.{option_map};
ghost use Rattle.chunk_model.specs.Tables.{table_of, with_table};

use crate::index::TableIndex;
use bson_values::Memory;
use chunk_table::Table;
use cluster_base::Namespace;
use std::alloc::Global;
use std::marker::Model;
use std::sync::Arc;

/// Tables in the order in which the node first received one of their collections, each shared with its other owners.
///
/// A caller reserves room before it writes a record, and adopts after it, which then can't fail.
#[derive(Drop)]
pub struct RouteCache {
    tables: TableIndex,
}

impl Model for RouteCache {
    ghost use Rattle.route_cache.specs.Known.{Known};
    ghost use Rattle.route_cache.specs.Code.{known_code};

    ghost Value = { Known };

    ghost coded = { known_code };

    ghost view = { λ c. c.tables };
}

impl RouteCache {
    /// Returns the cache without tables.
    pub fn new(alloc: Global) -> RouteCache
        ensures { result.tables ≡ [] }
    {
        RouteCache {
            tables: TableIndex::new(alloc),
        }
    }

    /// Returns the table of a collection, if one is known. Takes no memory.
    pub fn get(&self, namespace: &Namespace) -> Option<&Arc<Table, Global>>
        ensures { option_map (λ table. arc_value table.now) result ≡ table_of namespace.now self.now.tables }
    {
        self.tables.get(namespace)
    }

    /// Reserves room for one more table. Returns `Memory` if memory runs out. The tables are the same either way.
    pub fn reserve(&mut self) -> Result<(), Memory>
        ensures room { OnOk result (1 ≤ self.new.room) }
        ensures tables { self.new.tables ≡ self.old.tables }
    {
        self.tables.reserve()
    }

    /// Stores a table, for which there is room: in place of the one of its collection, if it has more changes than that, or after the others. Takes no
    /// memory.
    #[tactic(auto, using(crate::proofs::Puts::put_new, crate::proofs::Puts::put_longer, crate::proofs::Puts::kept_longer))]
    pub fn adopt(&mut self, table: Arc<Table, Global>)
        requires room { 1 ≤ self.old.room }
        ensures { self.new.tables ≡ with_table (arc_value table) self.old.tables }
    {
        match self.tables.get(table.namespace()) {
            Some(own) => {
                if table.longer_than(own) {
                    self.tables.put(table);
                }
            }
            None => self.tables.put(table),
        }
    }
}
