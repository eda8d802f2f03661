//! `hello` (MongoDB manual, "hello").

ghost use Rattle.command_model.specs.Command.{hello_command};

use crate::command::Command;
use crate::handshake::Handshake;
use bson_values::Document;

/// The handshake `hello`.
#[derive(Clone, Copy)]
pub(crate) struct Hello;

impl Handshake for Hello {
    ghost asked = { λ _ document. hello_command };

    fn command(&self, _document: &Document) -> Command {
        Command::Hello
    }
}
