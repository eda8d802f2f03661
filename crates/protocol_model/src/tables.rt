//! Messages on tables.

ghost use Rattle.std.specs.Prelude.{◌≡◌, IfOk};
ghost use Rattle.std.specs.Arc.{arc_value};
ghost use Rattle.std.specs.Option.{option_map};
ghost use Rattle.protocol_model.specs.Bodies.{table_ask_view, table_told_view};

use bson_values::Memory;
use chunk_table::Table;
use cluster_base::{Namespace, Time};
use std::alloc::Global;
use std::sync::Arc;

/// The time for which a table is requested.
#[derive(Clone, Copy, Debug, PartialEq, Eq, Drop)]
pub enum At {
    /// No time.
    NoTime,
    /// A read at this time.
    Time(Time),
}

/// To the catalogue: the table of a collection is requested; the collection is created where `create` is true and it does not exist.
#[derive(Drop)]
pub struct TableAsk {
    pub namespace: Namespace,
    pub create: bool,
    pub at: At,
}

impl TableAsk {
    /// Returns a copy, or `Memory` if memory runs out.
    pub fn copy(&self) -> Result<TableAsk, Memory>
        ensures { IfOk result (λ ask. table_ask_view ask ≡ table_ask_view self.now) }
    {
        let namespace = self.namespace.copy()?;
        Ok(TableAsk {
            namespace,
            create: self.create,
            at: self.at,
        })
    }
}

/// The answer: the table, if there is one, with the request that it answers. The table is shared.
#[derive(Drop)]
pub struct TableTold {
    pub namespace: Namespace,
    pub create: bool,
    pub at: At,
    pub table: Option<Arc<Table, Global>>,
}

/// Returns the same table, shared, or `Memory` if memory runs out.
fn share_table(table: &Option<Arc<Table, Global>>) -> Result<Option<Arc<Table, Global>>, Memory>
    ensures { IfOk result (λ copy. option_map (λ t. arc_value t) copy ≡ option_map (λ t. arc_value t) table.now) }
{
    match table {
        Some(table) => Ok(Some(Arc::try_clone(table)?)),
        None => Ok(None),
    }
}

impl TableTold {
    /// Returns a copy, which shares the table, or `Memory` if memory runs out.
    pub fn copy(&self) -> Result<TableTold, Memory>
        ensures { IfOk result (λ told. table_told_view told ≡ table_told_view self.now) }
    {
        let namespace = self.namespace.copy()?;
        let table = share_table(&self.table)?;
        Ok(TableTold {
            namespace,
            create: self.create,
            at: self.at,
            table,
        })
    }
}
