//! What a node returns of a step that it did not take.

ghost use Rattle.std.specs.Prelude.{◌≡◌, [], Some, map};
ghost use Rattle.std.specs.Option.{option_map};
ghost use Rattle.node_model.specs.Lacks.{refusal_to, requested_of_shard};
ghost use Rattle.node_model.specs.Letters as letters;
ghost use Rattle.node_model.specs.Letters.{is_lack, refused};
ghost use Rattle.node_traits.specs.Faults.{cause_of};
ghost use Rattle.node_traits.specs.Ids.{id_view};
ghost use Rattle.protocol_model.specs.Bodies.{body_view, write_ask_view};
ghost use Rattle.protocol_model.specs.Messages.{letter_of};
ghost use Rattle.protocol_model.specs.Missed.{Refuses, refusals};
ghost use Rattle.protocol_model.specs.Refusals.{about_view, lack_view};

use crate::body::Body;
use crate::message::Message;
use crate::refused::{About, Cause, Lack, Refused};
use crate::tables::At;
use crate::writes::WriteAsk;
use cluster_base::{NodeId, RequestId, Time};
use node_traits::{MailList, NotTaken, Outputs, ReplyList, StepFault};
use std::alloc::Global;

/// What was requested of a node, and by whom.
#[derive(Drop)]
pub struct Asked {
    pub sender: NodeId,
    pub about: About,
}

// Returns what was sent of a client's request in a turn, from the statement with this index on.
fn of_request(id: RequestId, turn: u32, first: u32) -> About
    ensures { about_view result ≡ letters.of_request (id_view id) turn first }
{
    About::Request { id, turn, first }
}

// Returns what a write requests: it is named by its first statement.
fn of_write(ask: &WriteAsk) -> About
    ensures { Some (about_view result) ≡ requested_of_shard (write_ask_view ask.now) }
{
    match ask.statements.first() {
        Some(statement) => of_request(ask.id, ask.turn, statement.index),
        None => of_request(ask.id, ask.turn, 0),
    }
}

/// Returns what a message requests of a shard, if it requests something. Takes no memory.
pub fn requested_of_shard(body: &Body) -> Option<About>
    ensures { option_map about_view result ≡ requested_of_shard (body_view body.now) }
{
    match body {
        Body::WriteAsk(ask) => Some(of_write(ask)),
        Body::ReadAsk(ask) => Some(of_request(ask.id, ask.turn, 0)),
        Body::HalfAsk(ask) => Some(of_request(ask.id, ask.turn, 0)),
        Body::TimeAsk(ask) => Some(of_request(ask.id, 0, 0)),
        Body::TableAsk(_)
        | Body::TableTold(_)
        | Body::SplitAsk(_)
        | Body::SplitDone(_)
        | Body::WriteDone(_)
        | Body::ReadRows(_)
        | Body::Refused(_)
        | Body::TimeTold(_) => None,
    }
}

// Returns the message of a node that it took no step on a request, for its lack.
fn of_lack(me: NodeId, receiver: NodeId, time: Time, about: About, lack: Lack) -> Message
    ensures { letter_of result ≡
        record { sender = me.0; receiver = receiver.0; time = time.0; body = refused (about_view about) (is_lack me.0 (lack_view lack)) } }
{
    Message {
        sender: me,
        receiver,
        time,
        body: Body::Refused(Refused {
            about,
            cause: Cause::Lack { node: me, lack },
        }),
    }
}

// Returns the answer of a node at a time that it took no step on a request, for its lack. Takes no memory.
fn refusal(me: NodeId, time: Time, asked: Asked, lack: Lack) -> Message
    ensures { letter_of result ≡ refusal_to me.0 time.0 asked.sender.0 (about_view asked.about) (lack_view lack) }
{
    let Asked { sender, about } = asked;
    match about {
        About::Request { id, turn, first } => {
            let about = About::Request { id, turn, first };
            of_lack(me, id.router, time, about, lack)
        }
        About::Table {
            namespace,
            create,
            at,
        } => {
            let about = About::Table {
                namespace,
                create,
                at,
            };
            match at {
                At::NoTime => of_lack(me, sender, time, about, lack),
                At::Time(at) => of_lack(me, sender, Time(time.0.max(at.0)), about, lack),
            }
        }
    }
}

// Returns the refusal of what was requested, if something was. Takes no memory.
fn refusals(
    alloc: Global,
    me: NodeId,
    time: Time,
    asked: Option<Asked>,
    lack: Lack,
) -> MailList<Message>
    ensures { map letter_of result ≡ refusals me.0 time.0 (lack_view lack) asked }
{
    match asked {
        Some(asked) => MailList::of_one(alloc, refusal(me, time, asked, lack)),
        None => MailList::new(alloc),
    }
}

// Returns what is sent where a node takes no step: the refusal of what was requested, and no reply.
fn refused_outputs(
    alloc: Global,
    me: NodeId,
    time: Time,
    asked: Option<Asked>,
    lack: Lack,
) -> Outputs<Message>
    ensures mail { map letter_of result.mail ≡ refusals me.0 time.0 (lack_view lack) asked }
    ensures replies { result.replies ≡ [] }
{
    Outputs {
        mail: refusals(alloc, me, time, asked, lack),
        replies: ReplyList::new(alloc),
    }
}

/// Returns what is told of a step that a node at a time did not take, after so many steps, for this cause: the refusal of what was requested of it. Takes no
/// memory.
pub fn missed(
    alloc: Global,
    me: NodeId,
    time: Time,
    steps: u64,
    asked: Option<Asked>,
    cause: NotTaken,
) -> StepFault<Message>
    ensures cause { cause_of result ≡ cause }
    ensures told { Refuses me.0 time.0 steps asked result }
{
    match cause {
        NotTaken::Disk { faults } => StepFault::Disk { faults },
        NotTaken::Steps => StepFault::Steps {
            told: refused_outputs(alloc, me, time, asked, Lack::Steps { steps }),
        },
        NotTaken::Memory => StepFault::Memory {
            told: refused_outputs(alloc, me, time, asked, Lack::Memory),
        },
    }
}
