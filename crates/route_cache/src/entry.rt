//! Tables as keys: compared and hashed by the names of their collections.

ghost use Rattle.std.specs.Prelude.{◌≡◌, refl};
ghost use Rattle.std.specs.Hash as fed;
ghost use Rattle.std.specs.Str.{bytes_eq};
ghost use Rattle.route_cache.specs.Names.{name_is_fed, names_agree, names_agree_partly, same_name, text_is_fed, text_of_both};

use chunk_table::Table;
use indexmap::Equivalent;
use std::alloc::Global;
use std::hash::{Hash, Hasher};
use std::marker::Model;
use std::sync::Arc;

/// A shared table, which is equal to another if both are tables of one collection.
#[derive(Drop)]
pub struct NamedTable {
    pub(crate) table: Arc<Table, Global>,
}

impl Model for NamedTable {
    ghost use Rattle.std.specs.Arc.{arc_value};
    ghost use Rattle.chunk_model.specs.Tables as tables;
    ghost use Rattle.chunk_table.specs.Code.{table_code};

    ghost Value = { tables.Table };

    ghost coded = { table_code };

    ghost view = { λ t. arc_value t.table };
}

impl NamedTable {
    // Returns the name of the collection.
    fn name(&self) -> &str
        ensures { result.now ≡ self.now.namespace }
    {
        self.table.namespace().as_str()
    }
}

impl PartialEq for NamedTable {
    ghost eq = { same_name };

    ghost laws = { names_agree_partly };

    fn eq(&self, other: &NamedTable) -> bool {
        other.name() == self.name()
    }
}

impl Eq for NamedTable {
    ghost laws = { names_agree };
}

impl Hash for NamedTable {
    ghost hash_input = { λ t. fed.str t.namespace };

    ghost respects_eq = { name_is_fed };

    fn hash<H: Hasher>(&self, state: &mut H) {
        self.name().hash(state);
    }
}

/// The name of a collection stands for its table.
impl Equivalent<NamedTable> for &str {
    ghost equivalent = { λ q t. bytes_eq t.namespace q.now };

    ghost respects_hash = { λ q t. text_is_fed q.now t };

    ghost respects_eq = { λ q x y. text_of_both q.now x y };

    fn equivalent(&self, key: &NamedTable) -> bool {
        key.name() == *self
    }
}
