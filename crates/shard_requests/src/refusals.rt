//! Requests that are not served, and tables that can't be had.

ghost use Rattle.std.specs.Prelude.{◌≡◌, IfSome, None, false};
ghost use Rattle.node_model.specs.Letters.{is_lack, letter_input, no_time, of_request, of_table, refused};
ghost use Rattle.node_model.specs.ShardRows.{AsksNothing, index_shown};
ghost use Rattle.node_model.specs.States.{Shard, shard_state};
ghost use Rattle.protocol_model.specs.Inputs.{input_of};
ghost use Rattle.protocol_model.specs.Messages.{letter_of};
ghost use Rattle.protocol_model.specs.Missed.{IsAsked};
ghost use Rattle.protocol_model.specs.Refusals.{cause_view, lack_view, refused_view};
ghost use Rattle.shard_requests.specs.Asks.{ask_view};

use crate::asks::Ask;
use cluster_base::{Namespace, NodeId};
use protocol_model::{About, Asked, At, Cause, Input, Lack, Message, Refused, requested_of_shard};

/// A collection whose table can't be had, since a node took no step.
#[derive(Drop)]
pub struct NoTable {
    pub namespace: Namespace,
    pub node: NodeId,
    pub lack: Lack,
}

// Returns the index of the first statement, or 0 where there is none.
fn index_shown(first: Option<u32>) -> u32
    ensures { result ≡ index_shown first }
{
    match first {
        Some(index) => index,
        None => 0,
    }
}

/// Returns the answer to a request that is not served.
pub fn refused_by(ask: &Ask<'_>, cause: Cause) -> Refused
    ensures { refused_view result
        ≡ refused (of_request (ask_view ask.now).id (ask_view ask.now).turn (index_shown (ask_view ask.now).first)) (cause_view cause) }
{
    let about = About::Request {
        id: ask.id,
        turn: ask.turn,
        first: index_shown(ask.first),
    };
    Refused { about, cause }
}

/// Returns the collection whose table can't be had, and why, if the answer is that to a request for the table of a shard.
pub fn no_table(answer: Refused) -> Option<NoTable>
    ensures some { IfSome result (λ x. refused_view answer ≡ refused (of_table x.namespace false no_time) (is_lack x.node.0 (lack_view x.lack))) }
    ensures none { (result ≡ None) → AsksNothing (refused_view answer) }
{
    let Refused { about, cause } = answer;
    match (about, cause) {
        (
            About::Table {
                namespace,
                create: false,
                at: At::NoTime,
            },
            Cause::Lack { node, lack },
        ) => Some(NoTable {
            namespace,
            node,
            lack,
        }),
        (About::Table { .. } | About::Request { .. }, _) => None,
    }
}

// Returns what a message requests of the shard with this number, if it is sent to it and requests something.
fn requested_by(me: NodeId, message: &Message) -> Option<Asked>
    ensures { (s : Shard) → s.me ≡ me.0 → IsAsked (shard_state s) (letter_input (letter_of message.now)) result }
{
    if message.receiver != me {
        return None;
    }
    match requested_of_shard(&message.body) {
        Some(about) => Some(Asked {
            sender: message.sender,
            about,
        }),
        None => None,
    }
}

/// Returns what an input requests of the shard with this number, if it requests something. Takes no memory.
pub fn requested(me: NodeId, input: &Input) -> Option<Asked>
    ensures { (s : Shard) → s.me ≡ me.0 → IsAsked (shard_state s) (input_of input.now) result }
{
    match input {
        Input::Deliver(message) => requested_by(me, message),
        Input::Client { .. } | Input::Moment(_) | Input::Opened => None,
    }
}
