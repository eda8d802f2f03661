//! `ping` (MongoDB manual, "ping").

ghost use Rattle.command_model.specs.Command.{ping_command};

use crate::command::Command;
use crate::handshake::Handshake;
use bson_values::Document;

/// `ping`, which has the form of a handshake.
#[derive(Clone, Copy)]
pub(crate) struct Ping;

impl Handshake for Ping {
    ghost asked = { λ _ document. ping_command };

    fn command(&self, _document: &Document) -> Command {
        Command::Ping
    }
}
