//! Writing a record as bytes.
//!
//! What is written comes after the bytes that were there. After an `Err` a part may be there too.

ghost use Rattle.std.specs.Prelude.{◌≡◌, ◌<◌, ◌^◌, ◌++◌, ◌∷◌, [], length, take, FitsSigned, OnErr, OnOk};
ghost use Rattle.std.specs.Int.{cast_unsigned, w64};
ghost use Rattle.std.specs.Str.{IsUtf8};
ghost use Rattle.base_model.specs.Names.{IsNamespace};
ghost use Rattle.bson_model.specs.Spelling.{written};
ghost use Rattle.record_model.specs.RecordFormat.{IsSoundOperation, IsSound, IsSoundKey, IsSoundNumber, IsSoundOutcome, IsSoundSession, IsSoundDocument, IsSoundKeyValue, IsSoundCreation, IsSoundEntry, eight, four, key_document, kind_byte, spelled, spelled_fields, spelled_creation, spelled_entry, spelled_key, spelled_number, spelled_outcome, spelled_session, spelled_string, spelled_operation};
ghost use Rattle.record_model.specs.Records.{entry_record};
ghost use Rattle.statement_views.specs.Views.{number_view, session_view};
ghost use Rattle.shard_records.specs.Meanings.{entry_view, outcome_view, record_view, operation_lent};
ghost use Rattle.shard_records.specs.Readable.{IsHeld, IsReadable};
ghost use Rattle.shard_records.specs.Sizes.{FitsRecord, IsWritableOperation, IsWritableKey, IsWritableRecord};
ghost use Rattle.bson_model.specs.Limits.{IsWritable};

use crate::change_writer::{put_commit, put_purge, put_resolve, put_split};
use crate::move_writer::{
    put_deletion, put_move_end, put_move_start, put_receive_done, put_receive_start, put_received,
    put_request, put_section,
};
use crate::record::{Record, WordsRef};
use crate::tables::put_table;
use bson_values::{Document, Memory, Name, write};
use byteorder::{ByteOrder, LittleEndian};
use cluster_base::{Namespace, Session, Stmt, Time};
use value_compare::{Key, Reply};

/// The format that records are written in.
pub(crate) const NEWEST_FORMAT: u8 = 0x01;

/// Writes the record's one encoding in the newest format after the bytes. Each document in the record has at most 100
/// levels and 400,000,000 bytes.
///
/// # Errors
/// `Memory` if memory runs out, and then the bytes are as they were.
pub fn write_record(kept: &Record, out: &mut Vec<u8>) -> Result<(), Memory>
    requires { IsWritableRecord (record_view kept.now) }
    ensures ok { OnOk result (out.new.items ≡ out.old.items ++ spelled 1 (record_view kept.now)) }
    // Where it is sound, its bytes encode no other record.
    ensures sound { OnOk result (IsSound (record_view kept.now)) }
    ensures err { OnErr result (out.new.items ≡ out.old.items) }
{
    let len = out.len();
    let done = put_record(kept, out);
    cut_after_err(done, len, out)
}

/// Writes the one encoding, in the newest format, of the record of an entry of these parts after the bytes, and copies no document.
/// Each document in it has at most 100 levels and 400,000,000 bytes, that of a key with it.
///
/// # Errors
/// `Memory` if memory runs out, and then the bytes are as they were.
pub fn write_entry(
    time: Time,
    namespace: &Namespace,
    statement: &Stmt,
    words: &WordsRef<'_>,
    reply: &Reply,
    out: &mut Vec<u8>,
) -> Result<(), Memory>
    requires words { IsWritableOperation (operation_lent words.now) }
    requires upserted { IsWritableKey (outcome_view reply.now).upserted }
    ensures ok { OnOk result (out.new.items ≡ out.old.items ++ spelled 1 (entry_record (entry_view time namespace.now statement.now (operation_lent words.now) reply.now))) }
    // Its bytes encode no other record, and a reader of records can hold it.
    ensures readable { OnOk result (IsReadable (entry_record (entry_view time namespace.now statement.now (operation_lent words.now) reply.now))) }
    ensures err { OnErr result (out.new.items ≡ out.old.items) }
{
    let len = out.len();
    let done = put_entry_record(time, namespace, statement, words, reply, out);
    cut_after_err(done, len, out)
}

/// Returns what was done; after an `Err` the bytes are cut to that length.
pub(crate) fn cut_after_err(
    done: Result<(), Memory>,
    len: usize,
    out: &mut Vec<u8>,
) -> Result<(), Memory>
    ensures same { result ≡ done }
    ensures ok { OnOk result (out.new.items ≡ out.old.items) }
    ensures err { OnErr result (out.new.items ≡ take len out.old.items) }
{
    if done.is_err() {
        out.truncate(len);
    }
    done
}

/// Writes the bytes.
pub(crate) fn put(bytes: &[u8], out: &mut Vec<u8>) -> Result<(), Memory>
    ensures ok { OnOk result (out.new.items ≡ out.old.items ++ bytes.now) }
    ensures kept { take (length out.old.items) out.new.items ≡ out.old.items }
{
    out.extend_from_slice(bytes)?;
    Ok(())
}

/// Writes the number's four bytes, the lowest first.
pub(crate) fn put_u32(n: u32, out: &mut Vec<u8>) -> Result<(), Memory>
    ensures ok { OnOk result (out.new.items ≡ out.old.items ++ four n) }
    ensures kept { take (length out.old.items) out.new.items ≡ out.old.items }
{
    let mut bytes = [0; 4];
    LittleEndian::write_u32(&mut bytes, n);
    put(&bytes, out)
}

/// Writes the number's eight bytes, the lowest first.
pub(crate) fn put_u64(n: u64, out: &mut Vec<u8>) -> Result<(), Memory>
    ensures ok { OnOk result (out.new.items ≡ out.old.items ++ eight n) }
    ensures kept { take (length out.old.items) out.new.items ≡ out.old.items }
{
    let mut bytes = [0; 8];
    LittleEndian::write_u64(&mut bytes, n);
    put(&bytes, out)
}

/// Writes a namespace: the number of its bytes, and its bytes.
pub(crate) fn put_namespace(namespace: &Namespace, out: &mut Vec<u8>) -> Result<(), Memory>
    ensures ok { OnOk result (out.new.items ≡ out.old.items ++ spelled_string namespace.now) }
    ensures kept { take (length out.old.items) out.new.items ≡ out.old.items }
    ensures namespace { IsNamespace namespace.now }
    ensures text { IsUtf8 namespace.now }
{
    let text = namespace.as_str();
    put_u32(text.len() as u32, out)?;
    put(text.as_bytes(), out)
}

/// Writes a document.
pub(crate) fn put_document(document: &Document, out: &mut Vec<u8>) -> Result<(), Memory>
    requires { FitsRecord document.now }
    ensures ok { OnOk result (out.new.items ≡ out.old.items ++ written document.now) }
    ensures sound { OnOk result (IsSoundDocument document.now) }
    ensures kept { take (length out.old.items) out.new.items ≡ out.old.items }
{
    write(document, out)
}

/// Writes the key that an upsert gave, if there is one.
fn put_key(key: &Option<Key>, out: &mut Vec<u8>) -> Result<(), Memory>
    requires { IsWritableKey key.now }
    ensures ok { OnOk result (out.new.items ≡ out.old.items ++ spelled_key key.now) }
    ensures sound { OnOk result (IsSoundKey key.now) }
    ensures kept { take (length out.old.items) out.new.items ≡ out.old.items }
{
    match key {
        None => put(&[0x00], out),
        Some(key) => {
            put(&[0x01], out)?;
            put_some_key(key, out)
        }
    }
}

/// Writes a key as the document that has it alone.
pub(crate) fn put_some_key(key: &Key, out: &mut Vec<u8>) -> Result<(), Memory>
    requires { IsWritable (key_document key.now) }
    ensures ok { OnOk result (out.new.items ≡ out.old.items ++ written (key_document key.now)) }
    ensures sound { OnOk result (IsSoundKeyValue key.now) }
    ensures kept { take (length out.old.items) out.new.items ≡ out.old.items }
{
    let alloc = *out.allocator();
    let mut document = Document::new(alloc);
    document.push(Name::of(alloc, "_id")?, key.value().copy()?)?;
    write(&document, out)
}

/// Writes whose statement it is.
pub(crate) fn put_session(session: &Session, out: &mut Vec<u8>) -> Result<(), Memory>
    ensures ok { OnOk result (out.new.items ≡ out.old.items ++ spelled_session (session_view session.now)) }
    ensures sound { OnOk result (IsSoundSession (session_view session.now)) }
    ensures kept { take (length out.old.items) out.new.items ≡ out.old.items }
{
    match session {
        Session::Client(id) => {
            put(&[0x00], out)?;
            put(id, out)
        }
        Session::Router {
            node,
            life,
            request,
        } => {
            put(&[0x01], out)?;
            put_u32(node.0, out)?;
            put_u64(*life, out)?;
            put_u64(*request, out)
        }
    }
}

/// Writes the number of a statement's write command in its session; below zero that of the number and 2^64.
fn put_txn(statement: &Stmt, out: &mut Vec<u8>) -> Result<(), Memory>
    ensures ok { OnOk result (out.new.items ≡ out.old.items ++ eight (cast_unsigned w64 statement.now.txn)) }
    ensures fits { FitsSigned w64 statement.now.txn }
    ensures kept { take (length out.old.items) out.new.items ≡ out.old.items }
{
    put_u64(statement.txn.cast_unsigned(), out)
}

/// Writes the number of a statement.
fn put_statement(statement: &Stmt, out: &mut Vec<u8>) -> Result<(), Memory>
    ensures ok { OnOk result (out.new.items ≡ out.old.items ++ spelled_number (number_view statement.now)) }
    ensures sound { OnOk result (IsSoundNumber (number_view statement.now)) }
    ensures kept { take (length out.old.items) out.new.items ≡ out.old.items }
{
    put_session(&statement.session, out)?;
    put_txn(statement, out)?;
    put_u32(statement.index, out)
}

/// Writes what a statement does.
fn put_operation(words: &WordsRef<'_>, out: &mut Vec<u8>) -> Result<(), Memory>
    requires { IsWritableOperation (operation_lent words.now) }
    ensures ok { OnOk result (out.new.items ≡ out.old.items ++ spelled_operation (operation_lent words.now)) }
    ensures sound { OnOk result (IsSoundOperation (operation_lent words.now)) }
    ensures kept { take (length out.old.items) out.new.items ≡ out.old.items }
{
    match words {
        WordsRef::Insert(document) => {
            put(&[0x01], out)?;
            put_document(document, out)
        }
        WordsRef::Update {
            filter,
            change,
            upsert,
        } => {
            put(&[0x02], out)?;
            put_document(filter, out)?;
            put_document(change, out)?;
            put(&[u8::from(*upsert)], out)
        }
        WordsRef::Delete { filter } => {
            put(&[0x03], out)?;
            put_document(filter, out)
        }
    }
}

/// Writes the reply to a statement.
pub(crate) fn put_reply(reply: &Reply, out: &mut Vec<u8>) -> Result<(), Memory>
    requires { IsWritableKey (outcome_view reply.now).upserted }
    ensures ok { OnOk result (out.new.items ≡ out.old.items ++ spelled_outcome (outcome_view reply.now)) }
    ensures sound { OnOk result (IsSoundOutcome (outcome_view reply.now)) }
    ensures kept { take (length out.old.items) out.new.items ≡ out.old.items }
{
    put_u32(reply.n, out)?;
    put_u32(reply.modified, out)?;
    put_key(&reply.upserted, out)?;
    put_u32(reply.code.cast_unsigned(), out)
}

/// Writes the fields of an entry of these parts.
fn put_entry(
    time: Time,
    namespace: &Namespace,
    statement: &Stmt,
    words: &WordsRef<'_>,
    reply: &Reply,
    out: &mut Vec<u8>,
) -> Result<(), Memory>
    requires words { IsWritableOperation (operation_lent words.now) }
    requires upserted { IsWritableKey (outcome_view reply.now).upserted }
    ensures ok { OnOk result (out.new.items ≡ out.old.items ++ spelled_entry (entry_view time namespace.now statement.now (operation_lent words.now) reply.now)) }
    ensures sound { OnOk result (IsSoundEntry (entry_view time namespace.now statement.now (operation_lent words.now) reply.now)) }
    ensures held { OnOk result (IsHeld (entry_record (entry_view time namespace.now statement.now (operation_lent words.now) reply.now))) }
    ensures kept { take (length out.old.items) out.new.items ≡ out.old.items }
{
    put_u64(time.0, out)?;
    put_namespace(namespace, out)?;
    put_statement(statement, out)?;
    put_operation(words, out)?;
    put_reply(reply, out)
}

/// Writes the record of an entry of these parts.
fn put_entry_record(
    time: Time,
    namespace: &Namespace,
    statement: &Stmt,
    words: &WordsRef<'_>,
    reply: &Reply,
    out: &mut Vec<u8>,
) -> Result<(), Memory>
    requires words { IsWritableOperation (operation_lent words.now) }
    requires upserted { IsWritableKey (outcome_view reply.now).upserted }
    ensures ok { OnOk result (out.new.items ≡ out.old.items ++ spelled 1 (entry_record (entry_view time namespace.now statement.now (operation_lent words.now) reply.now))) }
    ensures readable { OnOk result (IsReadable (entry_record (entry_view time namespace.now statement.now (operation_lent words.now) reply.now))) }
    ensures kept { take (length out.old.items) out.new.items ≡ out.old.items }
{
    put_head(0x02, out)?;
    put_entry(time, namespace, statement, words, reply, out)
}

/// Writes the format and the kind of a record.
pub(crate) fn put_head(kind: u8, out: &mut Vec<u8>) -> Result<(), Memory>
    ensures ok { OnOk result (out.new.items ≡ out.old.items ++ 1 ∷ kind ∷ []) }
    ensures kept { take (length out.old.items) out.new.items ≡ out.old.items }
{
    put(&[NEWEST_FORMAT, kind], out)
}

/// Writes the fields of a collection that begins.
pub(crate) fn put_creation(
    namespace: &Namespace,
    epoch: u64,
    at: Time,
    out: &mut Vec<u8>,
) -> Result<(), Memory>
    ensures ok { OnOk result (out.new.items ≡ out.old.items ++ spelled_creation (record { namespace = namespace.now; epoch = epoch; at = at.0 })) }
    ensures sound { OnOk result (IsSoundCreation (record { namespace = namespace.now; epoch = epoch; at = at.0 })) }
    ensures text { IsUtf8 namespace.now }
    ensures kept { take (length out.old.items) out.new.items ≡ out.old.items }
{
    put_namespace(namespace, out)?;
    put_u64(epoch, out)?;
    put_u64(at.0, out)
}

/// Returns the byte of the kind of a record.
fn kind_of(kept: &Record) -> u8
    ensures { result ≡ kind_byte (record_view kept.now) }
{
    match kept {
        Record::Table(_) => 0x01,
        Record::Entry { .. } => 0x02,
        Record::Ceiling(_) => 0x03,
        Record::Floor(_) => 0x04,
        Record::MoveStart(_) => 0x05,
        Record::Section(_) => 0x06,
        Record::MoveEnd(_) => 0x07,
        Record::Released(_) => 0x08,
        Record::ReceiveStart(_) => 0x09,
        Record::Batch(_) => 0x0a,
        Record::ReceiveDone(_) => 0x0b,
        Record::ReceiveEnd(_) => 0x0c,
        Record::Deleted(_) => 0x0d,
        Record::Create { .. } => 0x20,
        Record::Split(_) => 0x21,
        Record::Commit(_) => 0x22,
        Record::Resolve(_) => 0x23,
        Record::Purge(_) => 0x24,
        Record::CatalogueCeiling(_) => 0x25,
        Record::Life(_) => 0x30,
        Record::Block(_) => 0x31,
    }
}

/// Writes the fields of a record.
fn put_fields(kept: &Record, out: &mut Vec<u8>) -> Result<(), Memory>
    requires { IsWritableRecord (record_view kept.now) }
    ensures ok { OnOk result (out.new.items ≡ out.old.items ++ spelled_fields (record_view kept.now)) }
    ensures sound { OnOk result (IsSound (record_view kept.now)) }
    ensures kept { take (length out.old.items) out.new.items ≡ out.old.items }
{
    match kept {
        Record::Table(table) => put_table(table, out),
        Record::Entry {
            time,
            namespace,
            statement,
            op,
            reply,
        } => put_entry(*time, namespace, statement, &WordsRef::of(op), reply, out),
        Record::Create {
            namespace,
            epoch,
            at,
        } => put_creation(namespace, *epoch, *at, out),
        Record::MoveStart(kept) => put_move_start(kept, out),
        Record::Section(kept) => put_section(kept, out),
        Record::MoveEnd(kept) | Record::ReceiveEnd(kept) => put_move_end(kept, out),
        Record::Released(id) => put_request(id, out),
        Record::ReceiveStart(kept) => put_receive_start(kept, out),
        Record::Batch(kept) => put_received(kept, out),
        Record::ReceiveDone(kept) => put_receive_done(kept, out),
        Record::Deleted(kept) => put_deletion(kept, out),
        Record::Split(kept) => put_split(kept, out),
        Record::Commit(kept) => put_commit(kept, out),
        Record::Resolve(kept) => put_resolve(kept, out),
        Record::Purge(kept) => put_purge(kept, out),
        Record::Ceiling(time) | Record::Floor(time) | Record::CatalogueCeiling(time) => {
            put_u64(time.0, out)
        }
        Record::Life(number) | Record::Block(number) => put_u64(*number, out),
    }
}

/// Writes a record.
fn put_record(kept: &Record, out: &mut Vec<u8>) -> Result<(), Memory>
    requires { IsWritableRecord (record_view kept.now) }
    ensures ok { OnOk result (out.new.items ≡ out.old.items ++ spelled 1 (record_view kept.now)) }
    ensures sound { OnOk result (IsSound (record_view kept.now)) }
    ensures kept { take (length out.old.items) out.new.items ≡ out.old.items }
{
    put_head(kind_of(kept), out)?;
    put_fields(kept, out)
}
