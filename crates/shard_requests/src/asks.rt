//! Requests of documents.

ghost use Rattle.std.specs.Prelude.{◌≡◌, filter, map, not};
ghost use Rattle.std.specs.Option.{option_map};
ghost use Rattle.node_model.specs.ShardRows.{ask_in, is_ask, is_parked, same_ask, same_index, wants_table};
ghost use Rattle.protocol_model.specs.Bodies.{body_view};
ghost use Rattle.protocol_model.specs.Messages.{letter_of};
ghost use Rattle.shard_requests.specs.Asks.{ask_view};

use chunk_table::Sent;
use cluster_base::{Namespace, RequestId};
use protocol_model::{Body, Message};

/// Which request of documents a message is: of which client's request, in which turn, from which statement on (a read has none), and the
/// collection whose table it wants, with the versions that were sent.
#[derive(Drop)]
pub struct Ask<'a> {
    pub id: RequestId,
    pub turn: u32,
    pub first: Option<u32>,
    pub namespace: &'a Namespace,
    pub sent: Sent,
}

/// Returns the request of documents that a message is, if it is one. A request to write no statement is none.
pub fn ask_in(body: &Body) -> Option<Ask<'_>>
    ensures { option_map ask_view result ≡ ask_in (body_view body.now) }
{
    match body {
        Body::WriteAsk(ask) => match ask.statements.first() {
            Some(statement) => Some(Ask {
                id: ask.id,
                turn: ask.turn,
                first: Some(statement.index),
                namespace: &ask.namespace,
                sent: ask.sent,
            }),
            None => None,
        },
        Body::ReadAsk(ask) => Some(Ask {
            id: ask.id,
            turn: ask.turn,
            first: None,
            namespace: &ask.namespace,
            sent: ask.sent,
        }),
        Body::TableAsk(_)
        | Body::TableTold(_)
        | Body::SplitAsk(_)
        | Body::SplitDone(_)
        | Body::WriteDone(_)
        | Body::HalfAsk(_)
        | Body::ReadRows(_)
        | Body::Refused(_)
        | Body::TimeAsk(_)
        | Body::TimeTold(_) => None,
    }
}

// Returns whether both begin with the same statement, or with none.
fn same_first(a: Option<u32>, b: Option<u32>) -> bool
    ensures { result ≡ same_index a b }
{
    match (a, b) {
        (None, None) => true,
        (Some(a), Some(b)) => a == b,
        (None, Some(_)) | (Some(_), None) => false,
    }
}

// Returns whether both are one request.
fn same_ask(a: &Ask<'_>, b: &Ask<'_>) -> bool
    ensures { result ≡ same_ask (ask_view a.now) (ask_view b.now) }
{
    a.id.router.0 == b.id.router.0
        && a.id.life == b.id.life
        && a.id.count == b.id.count
        && a.turn == b.turn
        && same_first(a.first, b.first)
}

// Returns whether a message is that request.
fn is_ask(ask: &Ask<'_>, message: &Message) -> bool
    ensures { result ≡ is_ask (ask_view ask.now) (letter_of message.now) }
{
    match ask_in(&message.body) {
        Some(other) => same_ask(&other, ask),
        None => false,
    }
}

/// Returns whether a message waits for the table of the collection.
pub fn wants_table(message: &Message, namespace: &Namespace) -> bool
    ensures { result ≡ wants_table namespace.now (letter_of message.now) }
{
    match ask_in(&message.body) {
        Some(ask) => ask.namespace.as_str() == namespace.as_str(),
        None => false,
    }
}

/// Returns whether a request waits already: one of these messages is it.
pub fn is_parked(parked: &[Message], ask: &Ask<'_>) -> bool
    ensures { result ≡ is_parked (ask_view ask.now) (map letter_of parked.now) }
{
    for message in parked {
        if is_ask(ask, message) {
            return true;
        }
    }
    false
}

/// Removes the messages that wait for the table of the collection, and keeps the order of the others.
pub fn keep_others(parked: &mut Vec<Message>, namespace: &Namespace)
    ensures { map letter_of parked.new.items ≡ filter (λ p. not (wants_table namespace.now p)) (map letter_of parked.old.items) }
{
    parked.retain(|message| !wants_table(message, namespace));
}
