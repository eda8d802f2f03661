//! What a step sends and returns.

use crate::asked::asks_for;
use bson_values::Memory;
use fixtures::{RowFault, bytes_of, number};
use node_traits::{Mail, Outputs, ToLink};
use protocol_model::{Body, Message};
use std::alloc::Global;

/// The messages and the replies of a step.
#[derive(Drop)]
pub struct Sent {
    messages: Vec<Message>,
    replies: Vec<ToLink>,
}

/// Returns the turn of a message, 1 where it has none.
fn turn_of(message: &Message) -> u32 {
    match &message.body {
        Body::WriteAsk(ask) => ask.turn,
        Body::ReadAsk(ask) => ask.turn,
        _ => 1,
    }
}

/// Returns the node and the turn that words name, `NODE` or `NODE turn TURN`: the first where none is named.
fn read_target(words: &str) -> Result<(u32, u32), RowFault> {
    match words.split_once(" turn ") {
        None => Ok((number(words)?, 1)),
        Some((node, turn)) => Ok((number(node)?, number(turn)?)),
    }
}

/// Returns whether a message is of the kind, for the node and of the turn that the words name, as `ReadAsk 1` or `ReadAsk 1 turn 2`.
fn is_to(message: &Message, words: &str) -> Result<bool, RowFault> {
    let Some((kind, to)) = words.split_once(' ') else {
        return Err(RowFault::Form);
    };
    let (to, turn) = read_target(to)?;
    Ok(message.kind() == kind && message.receiver.0 == to && turn_of(message) == turn)
}

/// Returns whether a message is the one that the words name; of a `WriteAsk` they may go on with its statements, as `WriteAsk 1: 0 2`.
fn is_message(message: &Message, words: &str) -> Result<bool, RowFault> {
    match words.split_once(": ") {
        None => is_to(message, words),
        Some((head, asked)) => {
            let is_to_it = is_to(message, head)?;
            let is_for = asks_for(message, asked)?;
            Ok(is_to_it && is_for)
        }
    }
}

/// Returns whether a reply has these bytes in hexadecimal.
fn is_reply(alloc: Global, reply: &ToLink, digits: &str) -> Result<bool, RowFault> {
    let wanted = bytes_of(alloc, digits)?;
    Ok(reply.bytes.as_slice() == wanted.as_slice())
}

/// Returns whether these are the messages that the words name, in order, with commas between.
fn are_messages(messages: &[Message], words: &str) -> Result<bool, RowFault> {
    let mut words = words.split(", ");
    for message in messages {
        let Some(word) = words.next() else {
            return Ok(false);
        };
        if !is_message(message, word)? {
            return Ok(false);
        }
    }
    Ok(words.next().is_none())
}

impl Sent {
    /// Returns what a step sent, or `Memory` if memory runs out.
    pub fn of(alloc: Global, outputs: Outputs<Message>) -> Result<Sent, Memory> {
        let mut messages = Vec::new(alloc);
        outputs.mail.append_to(&mut messages)?;
        let mut replies = Vec::new(alloc);
        outputs.replies.append_to(&mut replies)?;
        Ok(Sent { messages, replies })
    }

    /// Returns whether it sent just these messages: `KIND NODE`, or `WriteAsk NODE: STATEMENTS`, with commas between.
    pub fn sends(&self, words: &str) -> Result<bool, RowFault> {
        if words.is_empty() {
            return Ok(self.messages.is_empty());
        }
        are_messages(&self.messages, words)
    }

    /// Returns whether it returned just these replies, in hexadecimal, with commas between, or none where there are no digits.
    pub fn returns(&self, alloc: Global, words: &str) -> Result<bool, RowFault> {
        if words.is_empty() {
            return Ok(self.replies.is_empty());
        }
        let mut words = words.split(", ");
        for reply in &self.replies {
            let Some(digits) = words.next() else {
                return Ok(false);
            };
            if !is_reply(alloc, reply, digits)? {
                return Ok(false);
            }
        }
        Ok(words.next().is_none())
    }
}
