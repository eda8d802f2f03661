//! The statements of a write, from the operands that its client sent.

ghost use Rattle.std.specs.Prelude.{◌≡◌, IfOk, Option, map};
ghost use Rattle.std.specs.List.{AllByRecursion};
ghost use Rattle.command_model.specs.Writes.{ClientNumber};
ghost use Rattle.command_model.specs.CommandSizes.{IsKeepable};
ghost use Rattle.base_model.specs.Identities as identities;
ghost use Rattle.node_model.specs.RouterRequests as requested;
ghost use Rattle.protocol_model.specs.Statements as protocol;
ghost use Rattle.protocol_model.specs.Statements.{statement_view};
ghost use Rattle.statement_views.specs.Views.{operation_view};

use bson_values::Memory;
use protocol_model::{NewChange, NewDocument, Operation, Statement, StatementList};
use std::alloc::Global;
use value_compare::OpWords;

/// Returns the operation of these operands, whose documents are moved. Returns `Memory` if memory runs out.
fn operation_of(alloc: Global, words: OpWords) -> Result<Operation, Memory>
    requires { IsKeepable (operation_view words) }
    ensures { IfOk result (λ operation. protocol.operation_view operation ≡ operation_view words) }
{
    match words {
        OpWords::Insert(document) => Ok(Operation::Insert(NewDocument::of(alloc, document)?)),
        words => Ok(Operation::Change(NewChange::of(alloc, words)?)),
    }
}

/// Returns the statements of these operations, numbered from 0. Returns `Memory` if memory runs out, and where their number exceeds 32 bits, which no command
/// reaches.
pub(crate) fn statements_of(
    alloc: Global,
    operations: Vec<OpWords>,
) -> Result<StatementList, Memory>
    requires { AllByRecursion IsKeepable (map operation_view operations.items) }
    ensures { (given : Option ClientNumber) (id : identities.RequestId) → IfOk result (λ list. map (λ s. statement_view given id s) list.items
        ≡ requested.statements_from given id 0 (map operation_view operations.items)) }
{
    let mut statements = Vec::new(alloc);
    let mut index: u32 = 0;
    for words in operations {
        if index == u32::MAX {
            return Err(Memory);
        }
        let operation = operation_of(alloc, words)?;
        statements.push(Statement { index, operation })?;
        index += 1;
    }
    Ok(statements)
}
