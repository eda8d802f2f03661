//! Commands whose statements are still in their request.

ghost use Rattle.std.specs.Prelude.{◌≡◌};
ghost use Rattle.command_replies.specs.Kinds.{given_view, kind_view};
ghost use Rattle.command_words.specs.Commands.{Tells};
ghost use Rattle.command_words.specs.Drafts.{judged};

use crate::command::Command;
use crate::writes::WriteCommand;
use bson_values::Document;
use cluster_base::Namespace;
use command_fields::{CheckFault, operations_of};
use command_replies::{ClientNumber, WriteKind};
use std::alloc::Global;

/// A write without its statements.
#[derive(Drop)]
pub(crate) struct WriteDraft {
    pub kind: WriteKind,
    pub namespace: Namespace,
    pub ordered: bool,
    pub number: Option<ClientNumber>,
}

/// A command, without the statements of a write.
#[derive(Drop)]
pub(crate) enum Draft {
    Whole(Command),
    Write(WriteDraft),
}

impl WriteDraft {
    /// Returns the write with these statements, unless one of them is refused; or `Memory` if memory runs out.
    pub(crate) fn with_statements(
        self,
        alloc: Global,
        statements: Vec<Document>,
    ) -> Result<Command, CheckFault>
        ensures { Tells result (judged (kind_view self.kind) self.namespace self.ordered (given_view self.number) statements.items) }
    {
        match operations_of(alloc, self.kind, statements) {
            Ok(operations) => Ok(Command::Write(WriteCommand {
                kind: self.kind,
                namespace: self.namespace,
                operations,
                ordered: self.ordered,
                number: self.number,
            })),
            Err(fault) => Err(fault),
        }
    }
}
