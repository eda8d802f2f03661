//! What is requested of the catalogue, and the messages that answer.

ghost use Rattle.std.specs.Prelude.{◌≡◌, IfSome, None, map};
ghost use Rattle.std.specs.Option.{option_map};
ghost use Rattle.node_model.specs.CatalogueRows.{AsksNothing};
ghost use Rattle.node_model.specs.Lacks.{requested_of_catalogue};
ghost use Rattle.node_model.specs.Letters.{letter_input};
ghost use Rattle.node_model.specs.States.{Catalogue, catalogue_state};
ghost use Rattle.protocol_model.specs.Bodies.{body_view};
ghost use Rattle.protocol_model.specs.Inputs.{input_of};
ghost use Rattle.protocol_model.specs.Messages.{letter_of};
ghost use Rattle.protocol_model.specs.Missed.{IsAsked};
ghost use Rattle.protocol_model.specs.Refusals.{about_view};
ghost use Rattle.config_node.specs.Asks.{ask_view};
ghost use Rattle.config_node.specs.Told.{answer_of, answers, letters};

use crate::plan::{Answer, without};
use cluster_base::{NodeId, Time};
use node_traits::MailList;
use protocol_model::{
    About, Asked, Body, Input, Message, SplitAsk, SplitDone, TableAsk, TableTold,
};
use std::alloc::Global;

/// What is requested of the catalogue.
#[derive(Drop)]
pub(crate) enum Ask<'a> {
    Table(&'a TableAsk),
    Split(&'a SplitAsk),
}

/// Returns what a message requests of the catalogue, if it requests something.
pub(crate) fn ask_in(body: &Body) -> Option<Ask<'_>>
    ensures some { IfSome result (λ ask. body_view body.now ≡ ask_view ask) }
    ensures none { (result ≡ None) → AsksNothing (body_view body.now) }
{
    match body {
        Body::TableAsk(ask) => Some(Ask::Table(ask)),
        Body::SplitAsk(ask) => Some(Ask::Split(ask)),
        Body::TableTold(_) => None,
        Body::SplitDone(_) => None,
        Body::WriteAsk(_) => None,
        Body::WriteDone(_) => None,
        Body::ReadAsk(_) => None,
        Body::HalfAsk(_) => None,
        Body::ReadRows(_) => None,
        Body::Refused(_) => None,
        Body::TimeAsk(_) => None,
        Body::TimeTold(_) => None,
    }
}

// Returns what a message requests of the catalogue, by what names it in an answer. Takes no memory.
fn about_in(body: Body) -> Option<About>
    ensures { option_map about_view result ≡ requested_of_catalogue (body_view body) }
{
    match body {
        Body::TableAsk(ask) => {
            let TableAsk {
                namespace,
                create,
                at,
            } = ask;
            Some(About::Table {
                namespace,
                create,
                at,
            })
        }
        Body::SplitAsk(ask) => {
            let about = About::Request {
                id: ask.id,
                turn: 0,
                first: 0,
            };
            Some(without(ask, about))
        }
        Body::TableTold(told) => without(told, None),
        Body::WriteAsk(ask) => without(ask, None),
        Body::WriteDone(done) => without(done, None),
        Body::ReadAsk(ask) => without(ask, None),
        Body::HalfAsk(ask) => without(ask, None),
        Body::ReadRows(rows) => without(rows, None),
        Body::Refused(answer) => without(answer, None),
        Body::SplitDone(_) => None,
        Body::TimeAsk(_) => None,
        Body::TimeTold(_) => None,
    }
}

// Returns what a message requests of the catalogue with this number, if it is sent to it and requests something.
fn requested_by(me: NodeId, message: Message) -> Option<Asked>
    ensures { (c : Catalogue) → c.me ≡ me.0 → IsAsked (catalogue_state c) (letter_input (letter_of message)) result }
{
    let Message {
        sender,
        receiver,
        time: _,
        body,
    } = message;
    let about = about_in(body);
    if receiver != me {
        return None;
    }
    match about {
        Some(about) => Some(Asked { sender, about }),
        None => None,
    }
}

/// Returns what an input requests of the catalogue with this number, if it requests something. Takes no memory.
pub(crate) fn requested(me: NodeId, input: Input) -> Option<Asked>
    ensures { (c : Catalogue) → c.me ≡ me.0 → IsAsked (catalogue_state c) (input_of input) result }
{
    match input {
        Input::Deliver(message) => requested_by(me, message),
        Input::Client { request, .. } => without(request, None),
        Input::Moment(_) => None,
        Input::Opened => None,
    }
}

// Returns the answer to a request, if it is one to that request. Takes no memory.
fn answer_of(answer: Answer, about: About) -> Option<Body>
    ensures { option_map body_view result ≡ answer_of answer (about_view about) }
{
    match answer {
        Answer::Nothing => without(about, None),
        Answer::Table(table) => match about {
            About::Table {
                namespace,
                create,
                at,
            } => Some(Body::TableTold(TableTold {
                namespace,
                create,
                at,
                table,
            })),
            About::Request { .. } => without(table, None),
        },
        Answer::Split { found } => match about {
            About::Request { id, .. } => Some(Body::SplitDone(SplitDone { id, found })),
            About::Table { namespace, .. } => without(namespace, None),
        },
    }
}

// Returns the message of a node to another one, if it has a body.
fn message_to(
    alloc: Global,
    me: NodeId,
    receiver: NodeId,
    time: Time,
    body: Option<Body>,
) -> MailList<Message>
    ensures { map letter_of result ≡ letters me.0 receiver.0 time.0 (option_map body_view body) }
{
    match body {
        Some(body) => MailList::of_one(
            alloc,
            Message {
                sender: me,
                receiver,
                time,
                body,
            },
        ),
        None => MailList::new(alloc),
    }
}

// Returns the answer to a message, from a node at a time. Takes no memory.
fn answers_to(
    alloc: Global,
    me: NodeId,
    time: Time,
    answer: Answer,
    message: Message,
) -> MailList<Message>
    ensures { map letter_of result ≡ answers me.0 time.0 answer (letter_input (letter_of message)) }
{
    let Message { sender, body, .. } = message;
    match about_in(body) {
        Some(about) => message_to(alloc, me, sender, time, answer_of(answer, about)),
        None => without(answer, MailList::new(alloc)),
    }
}

/// Returns the answer to an input, from a node at a time. Takes no memory.
pub(crate) fn answers(
    alloc: Global,
    me: NodeId,
    time: Time,
    answer: Answer,
    input: Input,
) -> MailList<Message>
    ensures { map letter_of result ≡ answers me.0 time.0 answer (input_of input) }
{
    match input {
        Input::Deliver(message) => answers_to(alloc, me, time, answer, message),
        Input::Client { request, .. } => without(request, without(answer, MailList::new(alloc))),
        Input::Moment(_) => without(answer, MailList::new(alloc)),
        Input::Opened => without(answer, MailList::new(alloc)),
    }
}
