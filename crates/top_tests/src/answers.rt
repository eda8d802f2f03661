//! Answers and their documents, encoded by hand: those that occur on no short connection.

use bson_values::{Aligned, Document, Text, Value, read};
use cluster_base::{Code, Namespace, Time};
use command_replies::{
    Answer, Batch, Evidence, Refusal, ShownTry, ShownVersion, StatementIndex, Upserted, WriteError,
    WriteKind, stale_refusal, write_answer,
};
use std::alloc::Global;
use std::cmp::Ordering;
use std::sync::Arc;
use std::test::Fail;
use value_compare::{Key, compare};

const TIME: Time = Time(4_294_967_296_002);

/// `{n: 2147483648L, ok: 1, operationTime: Timestamp(1000, 2)}`.
const MANY: &str =
    "2f000000126e000000008000000000106f6b0001000000116f7065726174696f6e54696d650002000000e803000000";

/// `{n: 1, writeErrors: [{index: 1, code: 11000, errmsg: "DuplicateKey"}, {index: 3, code: 2, errmsg: "BadValue"}], ok: 1,
/// operationTime: Timestamp(1000, 2)}`.
const ERRORS: &str =
    "a5000000106e00010000000477726974654572726f7273006d0000000330003300000010696e646578000100000010636f646500f82a0000026572726d7367000d0000004475706c69636174654b657900000331002f00000010696e646578000300000010636f64650002000000026572726d7367000900000042616456616c7565000000106f6b0001000000116f7065726174696f6e54696d650002000000e803000000";

/// `{n: 3, nModified: 1, upserted: [{index: 0, _id: 7}, {index: 2, _id: "a"}], writeErrors: [{index: 3, code: 66, errmsg:
/// "ImmutableField"}], ok: 1, operationTime: Timestamp(1000, 2)}`.
const UPDATED: &str =
    "cd000000106e0003000000106e4d6f6469666965640001000000047570736572746564003f0000000330001900000010696e6465780000000000105f69640007000000000331001b00000010696e6465780002000000025f69640002000000610000000477726974654572726f7273003d0000000330003500000010696e646578000300000010636f64650042000000026572726d7367000f000000496d6d757461626c654669656c64000000106f6b0001000000116f7065726174696f6e54696d650002000000e803000000";

/// `{cursor: {id: 0L, ns: "d.c", firstBatch: [{_id: 1}, {_id: 2}], atClusterTime: Timestamp(1000, 2)}, ok: 1,
/// operationTime: Timestamp(1000, 2)}`.
const FOUND: &str =
    "9300000003637572736f720067000000126964000000000000000000026e730004000000642e6300046669727374426174636800270000000330000e000000105f69640001000000000331000e000000105f696400020000000000116174436c757374657254696d650002000000e803000000106f6b0001000000116f7065726174696f6e54696d650002000000e803000000";

/// `{ok: 0, errmsg: "StaleConfig", code: 13388, codeName: "StaleConfig", evidence: {tries: [{sent: {epoch: 1L, major: 2L}, met: {epoch: 1L, major: 3L}},
/// {sent: {epoch: 1L, major: 3L}, met: {epoch: 2L, major: 1L}}]}}`.
const STALE: &str =
    "16010000106f6b0000000000026572726d7367000c0000005374616c65436f6e6669670010636f6465004c34000002636f64654e616d65000c0000005374616c65436f6e666967000365766964656e636500c300000004747269657300b7000000033000560000000373656e7400230000001265706f6368000100000000000000126d616a6f7200020000000000000000036d657400230000001265706f6368000100000000000000126d616a6f720003000000000000000000033100560000000373656e7400230000001265706f6368000100000000000000126d616a6f7200030000000000000000036d657400230000001265706f6368000200000000000000126d616a6f720001000000000000000000000000";

/// `{_id: 1}` and `{_id: 2}`.
const IDS: [&[u8]; 2] = [
    b"\x0e\0\0\0\x10_id\0\x01\0\0\0\0",
    b"\x0e\0\0\0\x10_id\0\x02\0\0\0\0",
];

/// Returns the document that the bytes begin with.
fn document_of(alloc: Global, bytes: &[u8]) -> Result<Document, Fail> {
    let (document, _length) = read(alloc, bytes)?;
    Ok(document)
}

/// Returns whether the documents are equal and have as many bytes: numbers of two widths differ in their bytes.
fn is_same(told: Document, wanted: Document) -> bool {
    told.size() == wanted.size()
        && compare(&Value::Doc(told), &Value::Doc(wanted)) == Ordering::Equal
}

/// Returns whether the answer's document is this one.
fn is_spelled(alloc: Global, answer: &Answer, digits: &str) -> Result<bool, Fail> {
    let bytes = hex::decode(alloc, digits)?;
    let wanted = document_of(alloc, &bytes)?;
    Ok(is_same(write_answer(alloc, answer)?, wanted))
}

/// Returns the error of the statement with that number.
fn error(index: u32, code: Code) -> Option<WriteError> {
    let index = StatementIndex::of(index)?;
    let refusal = Refusal {
        code,
        evidence: Evidence::Nothing,
    };
    Some(WriteError { index, refusal })
}

/// Returns the answer of an insert.
fn inserted(alloc: Global, count: u32, errors: Vec<WriteError>) -> Answer {
    Answer::Write {
        kind: WriteKind::Insert,
        count,
        modified: 0,
        upserted: Vec::new(alloc),
        errors,
        time: TIME,
    }
}

/// Returns the key that the statement with that number upserted.
fn upserted(alloc: Global, index: u32, value: Value) -> Result<Upserted, Fail> {
    let index = StatementIndex::of(index).ok_or("no index")?;
    let key = Key::of(value).map_err(|_| "no key")?;
    Ok(Upserted {
        index,
        key: Arc::new(alloc, key)?,
    })
}

#[test]
fn many_are_counted_in_64_bits(rt: HostRuntime) -> Result<(), Fail> {
    let many = inserted(rt.alloc(), 1 << 31, Vec::new(rt.alloc()));
    assert!(rt; is_spelled(rt.alloc(), &many, MANY)?);
    Ok(())
}

#[test]
fn errors_stand_in_order(rt: HostRuntime) -> Result<(), Fail> {
    let mut errors = Vec::new(rt.alloc());
    errors.push(error(1, Code::DuplicateKey).ok_or("no index")?)?;
    errors.push(error(3, Code::BadValue).ok_or("no index")?)?;
    assert!(rt; is_spelled(rt.alloc(), &inserted(rt.alloc(), 1, errors), ERRORS)?);
    Ok(())
}

#[test]
fn updates_are_counted_and_their_keys_told(rt: HostRuntime) -> Result<(), Fail> {
    let alloc = rt.alloc();
    let mut keys = Vec::new(alloc);
    keys.push(upserted(alloc, 0, Value::Int32(Aligned::of(7)))?)?;
    keys.push(upserted(alloc, 2, Value::Text(Text::of(alloc, "a")?))?)?;
    let mut errors = Vec::new(alloc);
    errors.push(error(3, Code::ImmutableField).ok_or("no index")?)?;
    let updated = Answer::Write {
        kind: WriteKind::Update,
        count: 3,
        modified: 1,
        upserted: keys,
        errors,
        time: TIME,
    };
    assert!(rt; is_spelled(alloc, &updated, UPDATED)?);
    Ok(())
}

#[test]
fn index_of_a_statement_has_a_limit(rt: HostRuntime) {
    assert!(rt; StatementIndex::of(100_000).is_none());
}

/// Returns the documents of `IDS`.
fn two_documents(alloc: Global) -> Result<Vec<Arc<Document>>, Fail> {
    let mut documents = Vec::new(alloc);
    documents.push(Arc::new(alloc, document_of(alloc, IDS[0])?)?)?;
    documents.push(Arc::new(alloc, document_of(alloc, IDS[1])?)?)?;
    Ok(documents)
}

#[test]
fn two_are_found(rt: HostRuntime) -> Result<(), Fail> {
    let alloc = rt.alloc();
    let found = Answer::First(Batch {
        cursor: 0,
        namespace: Namespace::read(alloc, "d.c").map_err(|_| "no namespace")?,
        documents: two_documents(alloc)?,
        time: TIME,
    });
    assert!(rt; is_spelled(alloc, &found, FOUND)?);
    Ok(())
}

/// Returns the version of a table.
fn version(epoch: u64, major: u64) -> ShownVersion {
    ShownVersion { epoch, major }
}

#[test]
fn tries_stand_in_order(rt: HostRuntime) -> Result<(), Fail> {
    let alloc = rt.alloc();
    let mut tries = Vec::new(alloc);
    tries.push(ShownTry {
        sent: version(1, 2),
        met: version(1, 3),
    })?;
    tries.push(ShownTry {
        sent: version(1, 3),
        met: version(2, 1),
    })?;
    let refused = Answer::Refused(stale_refusal(tries).copy(alloc)?);
    assert!(rt; is_spelled(alloc, &refused, STALE)?);
    Ok(())
}
