//! `endSessions` (MongoDB manual, "endSessions").

ghost use Rattle.command_model.specs.Command.{end_sessions_command};

use crate::command::Command;
use crate::handshake::Handshake;
use bson_values::Document;

/// `endSessions`, which has the form of a handshake.
#[derive(Clone, Copy)]
pub(crate) struct EndSessions;

impl Handshake for EndSessions {
    ghost asked = { λ _ document. end_sessions_command };

    fn command(&self, _document: &Document) -> Command {
        Command::EndSessions
    }
}
