//! Lists, and copies of them, whose documents are shared.

ghost use Rattle.std.specs.Prelude.{◌≡◌, IfOk, Option, map};
ghost use Rattle.command_model.specs.Writes.{ClientNumber};
ghost use Rattle.base_model.specs.Identities.{RequestId};
ghost use Rattle.protocol_model.specs.Statements.{done_view, statement_view};

use crate::statement::{Done, Statement};
use bson_values::{Document, Memory};
use std::alloc::Global;
use std::sync::Arc;

/// Statements, in order.
pub type StatementList = Vec<Statement>;

/// The outcomes of statements, in order.
pub type DoneList = Vec<Done>;

/// Documents that are shared, in order.
pub type DocumentList = Vec<Arc<Document, Global>>;

/// Returns copies of the statements, which share their documents, or `Memory` if memory runs out.
pub(crate) fn copy_statements(
    alloc: Global,
    statements: &[Statement],
) -> Result<StatementList, Memory>
    ensures { (given : Option ClientNumber) (id : RequestId) → IfOk result (λ list. map (statement_view given id) list.items
        ≡ map (statement_view given id) statements.now) }
{
    let mut list = Vec::new(alloc);
    for statement in statements {
        list.push(statement.copy()?)?;
    }
    Ok(list)
}

/// Returns copies of the outcomes, or `Memory` if memory runs out.
pub(crate) fn copy_dones(alloc: Global, dones: &[Done]) -> Result<DoneList, Memory>
    ensures { IfOk result (λ list. map done_view list.items ≡ map done_view dones.now) }
{
    let mut list = Vec::new(alloc);
    for done in dones {
        list.push(done.copy()?)?;
    }
    Ok(list)
}
