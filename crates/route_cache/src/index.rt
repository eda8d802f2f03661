//! Tables, at most one for each collection, found by a hash of its name.

ghost use Rattle.std.specs.Prelude.{◌≡◌, ◌≤◌, [], None, OnOk};
ghost use Rattle.std.specs.Arc.{arc_value};
ghost use Rattle.std.specs.Option.{option_map};
ghost use Rattle.chunk_model.specs.Tables.{table_of};
ghost use Rattle.route_cache.specs.Puts.{put_table};

use crate::entry::NamedTable;
use bson_values::Memory;
use chunk_table::Table;
use cluster_base::Namespace;
use indexmap::IndexSet;
use std::alloc::Global;
use std::marker::Model;
use std::sync::Arc;

/// Tables in the order in which one of each collection was first put, each shared with its other owners.
///
/// A caller reserves room before it writes a record, and puts the table after it, which then can't fail. The time that a call takes does not grow with the
/// number of tables, unless names have the same hash.
#[derive(Drop)]
pub struct TableIndex {
    tables: IndexSet<NamedTable>,
}

impl Model for TableIndex {
    ghost use Rattle.indexmap.specs.IndexSet.{spare};
    ghost use Rattle.route_cache.specs.Known.{Known};
    ghost use Rattle.route_cache.specs.Code.{known_code};

    ghost Value = { Known };

    ghost coded = { known_code };

    ghost view = { λ i. record { tables = i.tables.keys; room = spare i.tables } };
}

impl TableIndex {
    /// Returns the index without tables.
    pub fn new(alloc: Global) -> TableIndex
        ensures { result.tables ≡ [] }
    {
        TableIndex {
            tables: IndexSet::new(alloc),
        }
    }

    /// Returns the table of a collection, if there is one. Takes no memory.
    pub fn get(&self, namespace: &Namespace) -> Option<&Arc<Table, Global>>
        ensures { option_map (λ table. arc_value table.now) result ≡ table_of namespace.now self.now.tables }
    {
        match self.tables.get(namespace.as_str()) {
            Some(named) => Some(&named.table),
            None => None,
        }
    }

    /// Reserves room for one more table. Returns `Memory` if memory runs out. The tables are the same either way.
    pub fn reserve(&mut self) -> Result<(), Memory>
        ensures room { OnOk result (1 ≤ self.new.room) }
        ensures tables { self.new.tables ≡ self.old.tables }
    {
        self.tables.reserve(1)?;
        Ok(())
    }

    /// Stores a table: in place of the one of its collection, or after the others, where there is room for it. Takes no memory.
    pub fn put(&mut self, table: Arc<Table, Global>)
        requires room { table_of (arc_value table).namespace self.old.tables ≡ None → 1 ≤ self.old.room }
        ensures { self.new.tables ≡ put_table (arc_value table) self.old.tables }
    {
        match self.tables.replace(NamedTable { table }) {
            Ok(_) => {}
            Err(_) => unreachable!(),
        }
    }
}
