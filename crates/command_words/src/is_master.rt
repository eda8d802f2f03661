//! `isMaster`, the older `hello` (MongoDB manual, "hello").

ghost use Rattle.command_model.specs.Command.{legacy_command};
ghost use Rattle.command_model.specs.IsMaster.{legacy_of};

use crate::command::Command;
use crate::handshake::Handshake;
use bson_values::Document;
use command_fields::boolean_or;

/// Whether `helloOk` is shown.
#[derive(Clone, Copy, Debug, PartialEq, Eq)]
pub struct Legacy {
    pub shows_hello_ok: bool,
}

/// The handshake `isMaster`.
#[derive(Clone, Copy)]
pub(crate) struct IsMaster;

impl Handshake for IsMaster {
    ghost asked = { λ _ document. legacy_command (legacy_of document) };

    fn command(&self, document: &Document) -> Command {
        Command::Legacy(Legacy {
            shows_hello_ok: boolean_or(false, document, "helloOk"),
        })
    }
}
