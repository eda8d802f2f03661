//! The commands of requests.

ghost use Rattle.std.specs.Prelude.{◌≡◌, ℕ, Result, drop};
ghost use Rattle.std.specs.Option.{option_map, option_or};
ghost use Rattle.bson_model.specs.Faults.{Fault};
ghost use Rattle.base_model.specs.Errors.{ErrorCode};
ghost use Rattle.base_model.specs.Refusals.{no_document_at};
ghost use Rattle.bson_values.specs.ReadFaults.{fault_from};
ghost use Rattle.opmsg_model.specs.Requests as wire;
ghost use Rattle.opmsg_frames.specs.Lists.{pairs_of};
ghost use Rattle.opmsg_frames.specs.RequestMeanings.{IsBody, IsMeant, form_view};
ghost use Rattle.command_model.specs.Command as model;
ghost use Rattle.command_words.specs.Commands.{Answers, Tells};
ghost use Rattle.command_replies.specs.Refusals.{refusal_view};
ghost use Rattle.command_words.specs.Drafts.{Drafts};
ghost use Rattle.command_words.specs.Rows.{IsRowNamed, row_view};
ghost use Rattle.command_words.specs.declared.command.AnyForm.TheVariants.{Write};

use crate::aggregate::AggregateForm;
use crate::count::CountForm;
use crate::draft::Draft;
use crate::end_sessions::EndSessions;
use crate::fault::CommandFault;
use crate::find::{Find, FindForm};
use crate::forms::read_by;
use crate::get_more::{GetMore, MoreForm};
use crate::handshake::HandshakeForm;
use crate::hello::Hello;
use crate::is_master::{IsMaster, Legacy};
use crate::kill_cursors::{KillCursors, KillForm};
use crate::ping::Ping;
use crate::reading::Reading;
use crate::shard_collection::ShardForm;
use crate::split::{SplitCommand, SplitForm};
use crate::writes::{WriteCommand, WriteForm};
use bson_values::{BsonFault, Document};
use cluster_base::{Code, Namespace};
use command_fields::{CheckFault, documents_moved, documents_or_none};
use command_replies::{Evidence, Refusal, WriteKind};
use opmsg_frames::{Body, Form, Request, Sequence, SequenceList};
use std::alloc::Global;

/// The command of a request.
#[derive(Drop)]
pub enum Command {
    Hello,
    /// `isMaster` and `ismaster`.
    Legacy(Legacy),
    Ping,
    EndSessions,
    /// `insert`, `update` and `delete`.
    Write(WriteCommand),
    /// `find` and `aggregate`.
    Find(Find),
    Count(Reading),
    GetMore(GetMore),
    KillCursors(KillCursors),
    /// `shardCollection`, of this collection.
    ShardCollection(Namespace),
    Split(SplitCommand),
}

/// The forms of commands.
#[derive(Clone, Copy)]
pub(crate) enum AnyForm {
    Hello(HandshakeForm<Hello>),
    IsMaster(HandshakeForm<IsMaster>),
    Ping(HandshakeForm<Ping>),
    EndSessions(HandshakeForm<EndSessions>),
    Write(WriteForm),
    Find(FindForm),
    Aggregate(AggregateForm),
    Count(CountForm),
    GetMore(MoreForm),
    KillCursors(KillForm),
    ShardCollection(ShardForm),
    Split(SplitForm),
}

// Returns the form of the handshake of that name.
fn handshake_named(name: &str) -> Option<AnyForm>
    ensures found { option_or (option_map row_view result) (model.find_form_in name.now (drop 5 model.rows)) ≡ model.form_of name.now }
    ensures named { IsRowNamed result name.now }
{
    if "hello" == name {
        Some(AnyForm::Hello(HandshakeForm { handshake: Hello }))
    } else if "isMaster" == name || "ismaster" == name {
        Some(AnyForm::IsMaster(HandshakeForm {
            handshake: IsMaster,
        }))
    } else if "ping" == name {
        Some(AnyForm::Ping(HandshakeForm { handshake: Ping }))
    } else if "endSessions" == name {
        Some(AnyForm::EndSessions(HandshakeForm {
            handshake: EndSessions,
        }))
    } else {
        None
    }
}

// Returns the form of the write of that name.
fn write_named(name: &str) -> Option<WriteForm>
    ensures found { option_or (option_map (λ form. row_view (Write form)) result) (model.find_form_in name.now (drop 8 model.rows))
        ≡ model.find_form_in name.now (drop 5 model.rows) }
    ensures named { IsRowNamed (option_map (λ form. Write form) result) name.now }
{
    if "insert" == name {
        Some(WriteForm {
            kind: WriteKind::Insert,
        })
    } else if "update" == name {
        Some(WriteForm {
            kind: WriteKind::Update,
        })
    } else if "delete" == name {
        Some(WriteForm {
            kind: WriteKind::Delete,
        })
    } else {
        None
    }
}

// Returns the form of the reading command of that name.
fn read_named(name: &str) -> Option<AnyForm>
    ensures found { option_or (option_map row_view result) (model.find_form_in name.now (drop 13 model.rows)) ≡ model.find_form_in name.now (drop 8 model.rows) }
    ensures named { IsRowNamed result name.now }
{
    if "find" == name {
        Some(AnyForm::Find(FindForm))
    } else if "aggregate" == name {
        Some(AnyForm::Aggregate(AggregateForm))
    } else if "count" == name {
        Some(AnyForm::Count(CountForm))
    } else if "getMore" == name {
        Some(AnyForm::GetMore(MoreForm))
    } else if "killCursors" == name {
        Some(AnyForm::KillCursors(KillForm))
    } else {
        None
    }
}

// Returns the form of the command of that name that is sent to `admin`.
fn admin_named(name: &str) -> Option<AnyForm>
    ensures found { option_map row_view result ≡ model.find_form_in name.now (drop 13 model.rows) }
    ensures named { IsRowNamed result name.now }
{
    if "shardCollection" == name {
        Some(AnyForm::ShardCollection(ShardForm))
    } else if "split" == name {
        Some(AnyForm::Split(SplitForm))
    } else {
        None
    }
}

// Returns the form of the command of that name.
fn form_of(name: &str) -> Option<AnyForm>
    ensures found { option_map row_view result ≡ model.form_of name.now }
    ensures named { IsRowNamed result name.now }
{
    if let Some(form) = handshake_named(name) {
        return Some(form);
    }
    if let Some(form) = write_named(name) {
        return Some(AnyForm::Write(form));
    }
    if let Some(form) = read_named(name) {
        return Some(form);
    }
    admin_named(name)
}

// Returns the command of the document of a body and document sequences, by the form of their request; without the statements of a write.
fn draft_of(
    alloc: Global,
    sent: Form,
    document: &Document,
    sequences: &[Sequence],
) -> Result<Draft, CheckFault>
    ensures { Drafts document.now (pairs_of sequences.now) result (model.command_asked (form_view sent) document.now (pairs_of sequences.now)) }
{
    let [own, ..] = document.fields() else {
        return Err(CheckFault::Refused(Code::CommandNotFound));
    };
    let Some(form) = form_of(own.name.as_str()) else {
        return Err(CheckFault::Refused(Code::CommandNotFound));
    };
    match form {
        AnyForm::Hello(form) => read_by(&form, alloc, sent, &own.value, document, sequences),
        AnyForm::IsMaster(form) => read_by(&form, alloc, sent, &own.value, document, sequences),
        AnyForm::Ping(form) => read_by(&form, alloc, sent, &own.value, document, sequences),
        AnyForm::EndSessions(form) => read_by(&form, alloc, sent, &own.value, document, sequences),
        AnyForm::Write(form) => read_by(&form, alloc, sent, &own.value, document, sequences),
        AnyForm::Find(form) => read_by(&form, alloc, sent, &own.value, document, sequences),
        AnyForm::Aggregate(form) => read_by(&form, alloc, sent, &own.value, document, sequences),
        AnyForm::Count(form) => read_by(&form, alloc, sent, &own.value, document, sequences),
        AnyForm::GetMore(form) => read_by(&form, alloc, sent, &own.value, document, sequences),
        AnyForm::KillCursors(form) => read_by(&form, alloc, sent, &own.value, document, sequences),
        AnyForm::ShardCollection(form) => {
            read_by(&form, alloc, sent, &own.value, document, sequences)
        }
        AnyForm::Split(form) => read_by(&form, alloc, sent, &own.value, document, sequences),
    }
}

// Returns the command of the document of a body and document sequences; the documents of a write's statements are copied.
fn read_documents(
    alloc: Global,
    sent: Form,
    document: &Document,
    sequences: &[Sequence],
) -> Result<Command, CheckFault>
    ensures { Tells result (model.command_asked (form_view sent) document.now (pairs_of sequences.now)) }
{
    match draft_of(alloc, sent, document, sequences) {
        Ok(Draft::Whole(command)) => Ok(command),
        Ok(Draft::Write(write)) => {
            let statements = documents_or_none(alloc, write.kind, document, sequences)?;
            write.with_statements(alloc, statements)
        }
        Err(fault) => Err(fault),
    }
}

// The same for a document and sequences that are consumed; the documents of a write's statements are moved into it.
fn take_documents(
    alloc: Global,
    sent: Form,
    document: Document,
    sequences: SequenceList,
) -> Result<Command, CheckFault>
    ensures { Tells result (model.command_asked (form_view sent) document sequences) }
{
    match draft_of(alloc, sent, &document, sequences.as_slice()) {
        Ok(Draft::Whole(command)) => Ok(command),
        Ok(Draft::Write(write)) => {
            let statements = documents_moved(alloc, write.kind, document, sequences)?;
            write.with_statements(alloc, statements)
        }
        Err(fault) => Err(fault),
    }
}

// Returns a command, or its refusal without evidence.
fn answered(read: Result<Command, CheckFault>) -> Result<Command, CommandFault>
    ensures { (told : Result model.Command ErrorCode) → Tells read told → Answers result (model.or_refusal told) }
{
    match read {
        Ok(command) => Ok(command),
        Err(CheckFault::Refused(code)) => Err(CommandFault::Refused(Refusal {
            code,
            evidence: Evidence::Nothing,
        })),
        Err(CheckFault::Memory) => Err(CommandFault::Memory),
    }
}

// Returns the offset of the fault of a document that is not BSON.
fn place_of(fault: &BsonFault) -> u64
    ensures { (first : Fault) (place : ℕ) → fault.now ≡ fault_from first place → result ≡ place }
{
    match fault.place() {
        Some(place) => place as u64,
        None => 0,
    }
}

// Returns the refusal of a document that is not BSON, with the offset of its fault.
fn no_document(fault: &BsonFault) -> Refusal
    ensures { (first : Fault) (place : ℕ) → fault.now ≡ fault_from first place → refusal_view result ≡ no_document_at place }
{
    Refusal {
        code: Code::InvalidBson,
        evidence: Evidence::Place {
            place: place_of(fault),
        },
    }
}

impl Command {
    /// Returns the command of a request (MongoDB manual, "Database Commands"). Returns its first refusal in the order of the definitions, which shows the
    /// offset of the fault where a document is not BSON; and `Memory` if memory runs out.
    pub fn read(alloc: Global, request: &Request) -> Result<Command, CommandFault>
        ensures { (meant : wire.Request) → IsMeant request.now meant → Answers result (model.command_of meant) }
    {
        match &request.body {
            Body::Read { doc, sequences } => answered(read_documents(
                alloc,
                request.form,
                doc,
                sequences.as_slice(),
            )),
            Body::Faulty(fault) => Err(CommandFault::Refused(no_document(fault))),
        }
    }

    /// The same for the documents of a request, which are consumed: those of a write's statements are moved into the command, and none is copied. The caller
    /// keeps the rest of the request.
    pub fn take_body(alloc: Global, sent: Form, body: Body) -> Result<Command, CommandFault>
        ensures { (meant : wire.Body) → IsBody body meant → Answers result (model.command_in (form_view sent) meant) }
    {
        match body {
            Body::Read { doc, sequences } => answered(take_documents(alloc, sent, doc, sequences)),
            Body::Faulty(fault) => Err(CommandFault::Refused(no_document(&fault))),
        }
    }
}
