//! Which statements a message asks a shard to write.

use fixtures::{RowFault, number};
use protocol_model::{Body, Message, Statement, WriteAsk};

/// Returns whether these statements have just these indices, in order, with blanks between.
fn have_indices(statements: &[Statement], words: &str) -> Result<bool, RowFault> {
    let mut words = words.split(' ');
    for statement in statements {
        let Some(word) = words.next() else {
            return Ok(false);
        };
        let index: u32 = number(word)?;
        if statement.index != index {
            return Ok(false);
        }
    }
    Ok(words.next().is_none())
}

/// Returns whether the statements have this transaction from the client, or none where it is not given.
fn has_transaction(ask: &WriteAsk, wanted: Option<i64>) -> bool {
    match (&ask.number, wanted) {
        (Some(number), Some(wanted)) => number.transaction == wanted,
        (None, None) => true,
        _ => false,
    }
}

/// Returns whether a message asks to write these statements: their indices, and `txn NUMBER` after them where the client gave one.
pub fn asks_for(message: &Message, words: &str) -> Result<bool, RowFault> {
    let Body::WriteAsk(ask) = &message.body else {
        return Ok(false);
    };
    match words.split_once(" txn ") {
        None => Ok(has_transaction(ask, None) && have_indices(&ask.statements, words)?),
        Some((indices, transaction)) => {
            let transaction: i64 = number(transaction)?;
            Ok(has_transaction(ask, Some(transaction)) && have_indices(&ask.statements, indices)?)
        }
    }
}
