//! The bytes of records.

ghost use Rattle.std.specs.Prelude.{IfOk};
ghost use Rattle.statement_views.specs.Views.{operation_view};
ghost use Rattle.shard_records.specs.Meanings.{outcome_view};
ghost use Rattle.shard_records.specs.Sizes.{FitsRecord, IsWritableOperation, IsWritableKey};

use bson_values::{Aligned, Document, Name, Value};
use cluster_base::{NameFault, Namespace, NodeId, Session, Stmt, Time};
use fixtures::{RowFault, Rows, bytes_of, field, number};
use shard_records::{SplitChange, WordsRef, write_creation, write_entry, write_split};
use std::alloc::Global;
use value_compare::{Key, OpWords, Reply};

/// `TIME | SESSION | TXN | INDEX | OPERATION | N | MODIFIED | UPSERTED | CODE | BYTES`: an entry of the namespace `d.c`. A document
/// is `{_id: n}`, and is written as n; the operation is `insert n`, `update n n`, `upsert n n` or `delete n`.
#[derive(Drop)]
pub struct Entries;

impl Rows for Entries {
    fn holds(&mut self, alloc: Global, row: &str) -> Result<bool, RowFault> {
        let (time, rest) = field(row);
        let (session, rest) = field(rest);
        let (txn, rest) = field(rest);
        let (index, rest) = field(rest);
        let statement = Stmt {
            session: session_of(session)?,
            txn: number(txn)?,
            index: number(index)?,
        };
        outcome_holds(alloc, Time(number(time)?), statement, rest)
    }
}

fn outcome_holds(alloc: Global, time: Time, statement: Stmt, row: &str) -> Result<bool, RowFault> {
    let (operation, rest) = field(row);
    let (n, rest) = field(rest);
    let (modified, rest) = field(rest);
    let (upserted, rest) = field(rest);
    let (code, wanted) = field(rest);
    let reply = Reply {
        n: number(n)?,
        modified: number(modified)?,
        upserted: key_of(upserted)?,
        code: number(code)?,
    };
    let op = operation_of(alloc, operation)?;
    is_entry(alloc, time, &statement, &op, &reply, wanted)
}

// Returns a client's session; or that of router 2 in its first life for its first request.
fn session_of(word: &str) -> Result<Session, RowFault> {
    match word {
        "client" => Ok(Session::Client([
            0xc0, 1, 2, 3, 4, 5, 6, 7, 8, 9, 10, 11, 12, 13, 14, 0xcf,
        ])),
        "router" => Ok(Session::Router {
            node: NodeId(2),
            life: 1,
            request: 1,
        }),
        _ => Err(RowFault::Form),
    }
}

// Returns the key of that number; none at `none`.
fn key_of(word: &str) -> Result<Option<Key>, RowFault>
    ensures { IfOk result (λ k. IsWritableKey k) }
{
    if word == "none" {
        return Ok(None);
    }
    let n = number(word)?;
    Ok(Key::of(Value::Int32(Aligned::of(n))).ok())
}

// `{_id: n}`
fn document_of(alloc: Global, word: &str) -> Result<Document, RowFault>
    ensures { IfOk result (λ d. FitsRecord d) }
{
    let n = number(word)?;
    let mut document = Document::new(alloc);
    document.push(Name::of(alloc, "_id")?, Value::Int32(Aligned::of(n)))?;
    Ok(document)
}

fn operation_of(alloc: Global, words: &str) -> Result<OpWords, RowFault>
    ensures { IfOk result (λ o. IsWritableOperation (operation_view o)) }
{
    let Some((verb, rest)) = words.split_once(' ') else {
        return Err(RowFault::Form);
    };
    match verb {
        "insert" => insert_of(alloc, rest),
        "update" => update_of(alloc, rest, false),
        "upsert" => update_of(alloc, rest, true),
        "delete" => delete_of(alloc, rest),
        _ => Err(RowFault::Form),
    }
}

fn insert_of(alloc: Global, words: &str) -> Result<OpWords, RowFault>
    ensures { IfOk result (λ o. IsWritableOperation (operation_view o)) }
{
    Ok(OpWords::Insert(document_of(alloc, words)?))
}

fn update_of(alloc: Global, words: &str, upsert: bool) -> Result<OpWords, RowFault>
    ensures { IfOk result (λ o. IsWritableOperation (operation_view o)) }
{
    let Some((filter, change)) = words.split_once(' ') else {
        return Err(RowFault::Form);
    };
    let filter = document_of(alloc, filter)?;
    let change = document_of(alloc, change)?;
    Ok(OpWords::Update {
        filter,
        change,
        upsert,
    })
}

fn delete_of(alloc: Global, words: &str) -> Result<OpWords, RowFault>
    ensures { IfOk result (λ o. IsWritableOperation (operation_view o)) }
{
    let filter = document_of(alloc, words)?;
    Ok(OpWords::Delete { filter })
}

fn namespace(alloc: Global) -> Result<Namespace, RowFault> {
    match Namespace::read(alloc, "d.c") {
        Ok(namespace) => Ok(namespace),
        Err(NameFault::Form) => Err(RowFault::Form),
        Err(NameFault::Memory) => Err(RowFault::Memory),
    }
}

// Returns whether the record of the entry is written as these bytes.
fn is_entry(
    alloc: Global,
    time: Time,
    statement: &Stmt,
    op: &OpWords,
    reply: &Reply,
    wanted: &str,
) -> Result<bool, RowFault>
    requires op { IsWritableOperation (operation_view op.now) }
    requires reply { IsWritableKey (outcome_view reply.now).upserted }
{
    let namespace = namespace(alloc)?;
    let mut out = Vec::from_slice(alloc, &[0xaa])?;
    write_entry(
        time,
        &namespace,
        statement,
        &WordsRef::of(op),
        reply,
        &mut out,
    )?;
    is_spelled(alloc, &out, wanted)
}

// Returns whether these bytes come after the one that was there.
fn is_spelled(alloc: Global, out: &[u8], wanted: &str) -> Result<bool, RowFault> {
    let wanted = bytes_of(alloc, wanted)?;
    match out {
        [0xaa, spelled @ ..] => Ok(spelled == wanted.as_slice()),
        _ => Ok(false),
    }
}

/// `EPOCH | TIME | BYTES`: the namespace `d.c` begins.
#[derive(Drop)]
pub struct Creations;

impl Rows for Creations {
    fn holds(&mut self, alloc: Global, row: &str) -> Result<bool, RowFault> {
        let (epoch, rest) = field(row);
        let (time, wanted) = field(rest);
        let epoch = number(epoch)?;
        let at = Time(number(time)?);
        let namespace = namespace(alloc)?;
        let mut out = Vec::from_slice(alloc, &[0xaa])?;
        write_creation(&namespace, epoch, at, &mut out)?;
        is_spelled(alloc, &out, wanted)
    }
}

/// `KEY | TIME | BYTES`: a chunk of the namespace `d.c` is split at a key.
#[derive(Drop)]
pub struct Splits;

impl Rows for Splits {
    fn holds(&mut self, alloc: Global, row: &str) -> Result<bool, RowFault> {
        let (key, rest) = field(row);
        let (time, wanted) = field(rest);
        let Some(middle) = key_of(key)? else {
            return Err(RowFault::Form);
        };
        let split = SplitChange {
            namespace: namespace(alloc)?,
            middle,
            at: Time(number(time)?),
        };
        let mut out = Vec::from_slice(alloc, &[0xaa])?;
        write_split(&split, &mut out)?;
        is_spelled(alloc, &out, wanted)
    }
}
