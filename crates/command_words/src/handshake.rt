//! What the commands share that read only `$db` and `helloOk`: `hello`, `isMaster`, `ping` and `endSessions` (MongoDB manual, "hello", "ping",
//! "endSessions").

ghost use Rattle.std.specs.Prelude.{◌≡◌, None};
ghost use Rattle.bson_model.specs.Tree.{Fields};
ghost use Rattle.command_model.specs.Command as model;
ghost use Rattle.command_model.specs.Handshake.{handshake_form, handshake_rules};
ghost use Rattle.command_words.specs.Commands.{command_view};

use crate::command::Command;
use crate::draft::Draft;
use crate::forms::CommandForm;
use bson_values::{Document, Value};
use cluster_base::Code;
use command_fields::{CheckFault, Rules, boolean_needed, check_behind_own, passed, string_needed};
use opmsg_frames::Sequence;
use std::alloc::Global;

/// A command that reads only two fields.
pub(crate) trait Handshake {
    // The command of a document.
    ghost asked: { Self → Fields → model.Command };

    /// Returns the command of a document.
    fn command(&self, document: &Document) -> Command
        ensures { command_view result ≡ asked self.now document.now };
}

/// The form of such a command.
#[derive(Clone, Copy)]
pub(crate) struct HandshakeForm<H> {
    pub handshake: H,
}

impl<H: Handshake> Rules for HandshakeForm<H> {
    ghost rules = { λ _. handshake_rules };

    ghost unlisted_verdict = { λ _. None };

    fn ruling(&self, name: &str, value: &Value) -> Option<Option<Code>> {
        if "$db" == name {
            Some(string_needed(value))
        } else if "helloOk" == name {
            Some(boolean_needed(value))
        } else {
            None
        }
    }

    fn unlisted(&self) -> Option<Code> {
        None
    }
}

impl<H: Handshake> CommandForm for HandshakeForm<H> {
    type Own = ();

    type Given = ();

    ghost form = { λ form. handshake_form (H.asked form.handshake) };

    ghost is_name = { λ _ name. Unit {0} };

    ghost is_read = { λ _ read database value. Unit {0} };

    ghost are_read = { λ _ given database document. Unit {0} };

    fn read_own(&self, _alloc: Global, _database: &str, _own: &Value) -> Result<(), CheckFault> {
        Ok(())
    }

    fn read_fields(
        &self,
        _alloc: Global,
        _database: &str,
        document: &Document,
    ) -> Result<(), CheckFault> {
        passed(check_behind_own(self, document))
    }

    fn check_sequence(&self, _given: bool, _sequence: &Sequence) -> Option<Code> {
        Some(Code::FailedToParse)
    }

    fn check_needed(&self, _document: &Document, _sequences: &[Sequence]) -> Option<Code> {
        None
    }

    fn finish(
        &self,
        _alloc: Global,
        _own: (),
        _given: (),
        _value: &Value,
        document: &Document,
        _sequences: &[Sequence],
    ) -> Result<Draft, CheckFault> {
        Ok(Draft::Whole(self.handshake.command(document)))
    }
}
