//! Updates and deletes from clients.

ghost use Rattle.std.specs.Prelude.{◌≡◌, IfOk};
ghost use Rattle.std.specs.Arc.{arc_value};
ghost use Rattle.command_model.specs.CommandSizes.{IsKeepable};
ghost use Rattle.statement_views.specs.Views.{operation_view};

use bson_values::Memory;
use std::alloc::Global;
use std::marker::Model;
use std::sync::Arc;
use value_compare::OpWords;

/// The operands of an update or a delete: a statement under one key, whose documents are within the size of statements (MongoDB manual, "update", "delete"),
/// so it may be stored. They are shared with their other owners.
#[derive(Drop)]
pub struct NewChange {
    words: Arc<OpWords, Global>,
}

impl Model for NewChange {
    ghost use Rattle.history_model.specs.History.{Operation};
    ghost use Rattle.protocol_model.specs.Code.{operation_code};

    ghost Value = { Operation };

    ghost coded = { operation_code };

    ghost use Rattle.std.specs.Arc.{arc_value};
    ghost use Rattle.command_model.specs.CommandSizes.{IsKeepable};
    ghost use Rattle.statement_views.specs.Views.{operation_view};

    ghost view = { λ c. operation_view (arc_value c.words) };

    ghost invariant = { λ c. IsKeepable (operation_view (arc_value c.words)) };
}

impl NewChange {
    /// Returns the operands, to be shared, or `Memory` if memory runs out.
    pub fn of(alloc: Global, words: OpWords) -> Result<NewChange, Memory>
        requires { IsKeepable (operation_view words) }
        ensures { IfOk result (λ new. new ≡ operation_view words) }
    {
        let words = Arc::new(alloc, words)?;
        Ok(NewChange { words })
    }

    /// Returns the operands, which may be stored.
    pub fn words(&self) -> &Arc<OpWords, Global>
        ensures same { operation_view (arc_value result.now) ≡ self.now }
        ensures keepable { IsKeepable self.now }
    {
        &self.words
    }

    /// Returns a copy, which shares the operands, or `Memory` if memory runs out.
    pub fn copy(&self) -> Result<NewChange, Memory>
        ensures { IfOk result (λ new. new ≡ self.now) }
    {
        let words = Arc::try_clone(&self.words)?;
        Ok(NewChange { words })
    }
}
