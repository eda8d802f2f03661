//! Commands that write: `insert`, `update` and `delete` (MongoDB manual, "insert", "update", "delete").

ghost use Rattle.std.specs.Prelude.{◌≡◌, Some};
ghost use Rattle.command_replies.specs.Kinds.{kind_view};
ghost use Rattle.base_model.specs.Errors.{failed_to_parse};
ghost use Rattle.command_model.specs.Command.{write_command};
ghost use Rattle.command_model.specs.Forms.{made_into};
ghost use Rattle.command_model.specs.Writes.{statement_form, write_form, write_rules};
ghost use Rattle.command_fields.specs.FieldNames.{NamesCollection};
ghost use Rattle.command_words.specs.WriteNames.{name_view};
ghost use Rattle.command_fields.specs.Sessions.{HasSession};

use crate::draft::{Draft, WriteDraft};
use crate::forms::CommandForm;
use bson_values::{Document, Value};
use cluster_base::{Code, Namespace};
use command_fields::{
    CheckFault, Rules, boolean_needed, boolean_or, check_behind_own, check_count, client_number,
    collection_of, common_ruling, document_needed, documents_needed, has_documents, passed,
    session_needed, statements_name, whole_needed,
};
use command_replies::{ClientNumber, WriteKind};
use opmsg_frames::Sequence;
use std::alloc::Global;
use value_compare::OpWords;

/// To apply these operations to a collection, in order; `ordered`: the first error ends it.
#[derive(Drop)]
pub struct WriteCommand {
    pub kind: WriteKind,
    pub namespace: Namespace,
    pub operations: Vec<OpWords>,
    pub ordered: bool,
    /// The number that the client gave the statements, if it gave one.
    pub number: Option<ClientNumber>,
}

/// The form of a command that writes.
#[derive(Clone, Copy)]
pub(crate) struct WriteForm {
    pub kind: WriteKind,
}

impl Rules for WriteForm {
    ghost rules = { λ f. write_rules (statement_form (kind_view f.kind)) };

    ghost unlisted_verdict = { λ _. Some failed_to_parse };

    fn ruling(&self, name: &str, value: &Value) -> Option<Option<Code>> {
        if statements_name(self.kind) == name {
            Some(documents_needed(value))
        } else if "ordered" == name {
            Some(boolean_needed(value))
        } else if "writeConcern" == name {
            Some(document_needed(value))
        } else if "bypassDocumentValidation" == name {
            Some(boolean_needed(value))
        } else if "txnNumber" == name {
            Some(whole_needed(value))
        } else {
            common_ruling(name, value)
        }
    }

    fn unlisted(&self) -> Option<Code> {
        Some(Code::FailedToParse)
    }
}

impl CommandForm for WriteForm {
    type Own = Namespace;

    type Given = ();

    ghost form = { λ f. made_into write_command (write_form (kind_view f.kind)) };

    ghost is_name = { λ f name. name ≡ name_view f.kind };

    ghost is_read = { λ _ namespace database value. NamesCollection namespace database value };

    ghost are_read = { λ _ given database document. HasSession document };

    fn read_own(
        &self,
        alloc: Global,
        database: &str,
        own: &Value,
    ) -> Result<Namespace, CheckFault> {
        collection_of(alloc, database, own)
    }

    fn read_fields(
        &self,
        _alloc: Global,
        _database: &str,
        document: &Document,
    ) -> Result<(), CheckFault> {
        passed(check_behind_own(self, document))
    }

    fn check_sequence(&self, given: bool, sequence: &Sequence) -> Option<Code> {
        if given || sequence.identifier.as_str() != statements_name(self.kind) {
            Some(Code::FailedToParse)
        } else {
            check_count(sequence.documents.as_slice().len())
        }
    }

    fn check_needed(&self, document: &Document, sequences: &[Sequence]) -> Option<Code> {
        if has_documents(self.kind, document, sequences) {
            session_needed(document)
        } else {
            Some(Code::FailedToParse)
        }
    }

    fn finish(
        &self,
        _alloc: Global,
        own: Namespace,
        _given: (),
        _value: &Value,
        document: &Document,
        _sequences: &[Sequence],
    ) -> Result<Draft, CheckFault> {
        Ok(Draft::Write(WriteDraft {
            kind: self.kind,
            namespace: own,
            ordered: boolean_or(true, document, "ordered"),
            number: client_number(document),
        }))
    }
}
