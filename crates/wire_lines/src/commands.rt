//! The commands of requests, in words.

use bson_values::{Document, Value};
use command_replies::{ClientNumber, Evidence, Refusal, WriteKind};
use command_words::{
    Command, CommandFault, Find, GetMore, KillCursors, Legacy, Reading, SplitCommand, WriteCommand,
};
use opmsg_frames::Request;
use row_disks::RowFault;
use std::alloc::{AllocError, Global};
use value_compare::{Key, OpWords};

/// What is told of in a line.
trait Told {
    /// Appends its words. Returns `Memory` if memory runs out.
    fn tell(&self, line: &mut String) -> Result<(), RowFault>;
}

/// Appends the words of what was read, or those of the fault. Both are let go here, in a function of any type: the drop of a command is long to prove.
fn tell_read<T: Told + Drop, E: Told + Drop>(
    line: &mut String,
    read: Result<T, E>,
) -> Result<(), RowFault> {
    match read {
        Ok(told) => told.tell(line),
        Err(fault) => fault.tell(line),
    }
}

impl Told for Command {
    fn tell(&self, line: &mut String) -> Result<(), RowFault> {
        Ok(put_asked(line, self)?)
    }
}

impl Told for CommandFault {
    fn tell(&self, line: &mut String) -> Result<(), RowFault> {
        match self {
            CommandFault::Refused(refusal) => Ok(put_refusal(line, refusal)?),
            CommandFault::Memory => Err(RowFault::Memory),
        }
    }
}

/// Appends the command of the request, or why it is none. Returns `Memory` if memory runs out.
pub fn put_command(alloc: Global, line: &mut String, request: &Request) -> Result<(), RowFault> {
    tell_read(line, Command::read(alloc, request))
}

/// Appends the refusal: the number of its code, and the offset that it shows.
fn put_refusal(line: &mut String, refusal: &Refusal) -> Result<(), AllocError> {
    let code = refusal.code.number();
    write!(line, "refused {code}")?;
    match &refusal.evidence {
        Evidence::Nothing => Ok(()),
        Evidence::Place { place } => write!(line, " at {place}"),
        _ => line.push_str(" otherwise"),
    }
}

/// Appends the sizes of the documents of an operation, and whether it upserts.
fn put_operation(line: &mut String, words: &OpWords) -> Result<(), AllocError> {
    match words {
        OpWords::Insert(document) => put_size(line, " ", document),
        OpWords::Update {
            filter,
            change,
            upsert,
        } => put_update(line, filter, change, *upsert),
        OpWords::Delete { filter } => put_size(line, " ", filter),
    }
}

fn put_update(
    line: &mut String,
    filter: &Document,
    change: &Document,
    upsert: bool,
) -> Result<(), AllocError> {
    put_size(line, " ", filter)?;
    put_size(line, ":", change)?;
    line.push_str(if upsert { ":upsert" } else { "" })
}

/// Appends the size of a document after a mark.
fn put_size(line: &mut String, mark: &str, document: &Document) -> Result<(), AllocError> {
    let size = document.size();
    write!(line, "{mark}{size}")
}

fn kind_word(kind: WriteKind) -> &'static str {
    match kind {
        WriteKind::Insert => "insert",
        WriteKind::Update => "update",
        WriteKind::Delete => "delete",
    }
}

fn put_write(line: &mut String, write: &WriteCommand) -> Result<(), AllocError> {
    let kind = kind_word(write.kind);
    let order = if write.ordered {
        "ordered"
    } else {
        "unordered"
    };
    let namespace = write.namespace.as_str();
    write!(line, "{kind} {namespace} {order}")?;
    for words in &write.operations {
        put_operation(line, words)?;
    }
    put_number(line, write.number)
}

/// Appends the transaction of a client's number, where it gave one.
fn put_number(line: &mut String, number: Option<ClientNumber>) -> Result<(), AllocError> {
    let Some(number) = number else {
        return Ok(());
    };
    let transaction = number.transaction;
    write!(line, " number {transaction}")
}

/// Appends a word and its number, where there is one.
fn put_given(line: &mut String, word: &str, number: Option<u64>) -> Result<(), AllocError> {
    let Some(number) = number else {
        return Ok(());
    };
    write!(line, " {word} {number}")
}

/// Appends what is read, and the times that are named.
fn put_reading(line: &mut String, word: &str, reading: &Reading) -> Result<(), AllocError> {
    let namespace = reading.namespace.as_str();
    write!(line, "{word} {namespace}")?;
    put_given(line, "at", reading.at.map(|time| time.0))?;
    put_given(line, "after", reading.after.map(|time| time.0))
}

fn put_find(line: &mut String, find: &Find) -> Result<(), AllocError> {
    put_reading(line, "find", &find.reading)?;
    put_given(line, "size", find.batches.size)?;
    line.push_str(if find.batches.single { " single" } else { "" })
}

fn put_get_more(line: &mut String, more: &GetMore) -> Result<(), AllocError> {
    let namespace = more.namespace.as_str();
    let cursor = more.cursor;
    write!(line, "getMore {namespace} {cursor}")?;
    put_given(line, "size", more.size)
}

fn put_kill_cursors(line: &mut String, kill: &KillCursors) -> Result<(), AllocError> {
    let namespace = kill.namespace.as_str();
    write!(line, "killCursors {namespace}")?;
    for cursor in &kill.cursors {
        let cursor = *cursor;
        write!(line, " {cursor}")?;
    }
    Ok(())
}

/// Appends a key, if it is a whole number, a text or null.
fn put_key(line: &mut String, key: &Key) -> Result<(), AllocError> {
    match key.value() {
        Value::Int32(number) => {
            let number = number.content;
            write!(line, "{number}")
        }
        Value::Int64(number) => write!(line, "{number}L"),
        Value::Text(text) => {
            let text = text.as_str();
            write!(line, "\"{text}\"")
        }
        Value::Null => line.push_str("null"),
        _ => line.push_str("another key"),
    }
}

fn put_split(line: &mut String, split: &SplitCommand) -> Result<(), AllocError> {
    let namespace = split.namespace.as_str();
    write!(line, "split {namespace} at ")?;
    put_key(line, &split.middle)
}

fn legacy_words(legacy: &Legacy) -> &'static str {
    if legacy.shows_hello_ok {
        "isMaster helloOk"
    } else {
        "isMaster"
    }
}

/// Appends the command, without the content of its documents.
fn put_asked(line: &mut String, command: &Command) -> Result<(), AllocError> {
    match command {
        Command::Hello => line.push_str("hello"),
        Command::Legacy(legacy) => line.push_str(legacy_words(legacy)),
        Command::Ping => line.push_str("ping"),
        Command::EndSessions => line.push_str("endSessions"),
        Command::Write(write) => put_write(line, write),
        Command::Find(find) => put_find(line, find),
        Command::Count(reading) => put_reading(line, "count", reading),
        Command::GetMore(more) => put_get_more(line, more),
        Command::KillCursors(kill) => put_kill_cursors(line, kill),
        Command::ShardCollection(namespace) => put_named(line, namespace.as_str()),
        Command::Split(split) => put_split(line, split),
    }
}

fn put_named(line: &mut String, namespace: &str) -> Result<(), AllocError> {
    write!(line, "shardCollection {namespace}")
}
