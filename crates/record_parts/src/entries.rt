//! Reading the parts of an entry.

ghost use Rattle.std.specs.Prelude.{IfOk};
ghost use Rattle.statement_views.specs.Views.{number_view, operation_view, outcome_view, session_view};
ghost use Rattle.record_parts.specs.Finds.{Finds};
ghost use Rattle.record_parts.specs.Readers.{client_at, delete_at, insert_at, operation_at, option_key_at, outcome_at, router_at, session_at, some_key_at, statement_at, update_at};
ghost use Rattle.shard_records.specs.Sizes.{IsWritableKey, IsWritableOperation};

use crate::fault::RecordFault;
use crate::parts::{read_byte, read_bytes, read_document, read_key, read_u32, read_u64};
use cluster_base::{NodeId, Session, Stmt};
use std::alloc::Global;
use value_compare::{Key, OpWords, Reply};

/// Reads the key that an upsert gave, if it gave one.
#[tactic(auto, unfolding(crate::specs::Readers::some_key_at))]
fn read_some_key(alloc: Global, bytes: &[u8]) -> Result<(Option<Key>, &[u8]), RecordFault>
    ensures found { Finds (λ x. (x.0, x.1.now)) result (some_key_at bytes.now) }
    ensures fits { IfOk result (λ x. IsWritableKey x.0) }
{
    let (key, rest) = read_key(alloc, bytes)?;
    Ok((Some(key), rest))
}

/// Reads a key, if there is one.
#[tactic(auto, unfolding(crate::specs::Readers::option_key_at))]
fn read_option_key(alloc: Global, bytes: &[u8]) -> Result<(Option<Key>, &[u8]), RecordFault>
    ensures found { Finds (λ x. (x.0, x.1.now)) result (option_key_at bytes.now) }
    ensures fits { IfOk result (λ x. IsWritableKey x.0) }
{
    let (kind, rest) = read_byte(bytes)?;
    match kind {
        0x00 => Ok((None, rest)),
        0x01 => read_some_key(alloc, rest),
        _ => Err(RecordFault::NoRecord),
    }
}

/// Reads a client's session.
#[tactic(auto, unfolding(crate::specs::Readers::client_at))]
fn read_client(bytes: &[u8]) -> Result<(Session, &[u8]), RecordFault>
    ensures { Finds (λ x. (session_view x.0, x.1.now)) result (client_at bytes.now) }
{
    let (found, rest) = read_bytes(16, bytes)?;
    let mut id = [0; 16];
    id.copy_from_slice(found);
    Ok((Session::Client(id), rest))
}

/// Reads a router's session.
#[tactic(auto, unfolding(crate::specs::Readers::router_at))]
fn read_router(bytes: &[u8]) -> Result<(Session, &[u8]), RecordFault>
    ensures { Finds (λ x. (session_view x.0, x.1.now)) result (router_at bytes.now) }
{
    let (node, rest) = read_u32(bytes)?;
    let (life, rest) = read_u64(rest)?;
    let (request, rest) = read_u64(rest)?;
    let session = Session::Router {
        node: NodeId(node),
        life,
        request,
    };
    Ok((session, rest))
}

/// Reads whose statement it is.
#[tactic(auto, unfolding(crate::specs::Readers::session_at))]
pub fn read_session(bytes: &[u8]) -> Result<(Session, &[u8]), RecordFault>
    ensures { Finds (λ x. (session_view x.0, x.1.now)) result (session_at bytes.now) }
{
    let (kind, rest) = read_byte(bytes)?;
    match kind {
        0x00 => read_client(rest),
        0x01 => read_router(rest),
        _ => Err(RecordFault::NoRecord),
    }
}

/// Reads the number of a statement.
#[tactic(auto, unfolding(crate::specs::Readers::statement_at))]
pub fn read_statement(bytes: &[u8]) -> Result<(Stmt, &[u8]), RecordFault>
    ensures { Finds (λ x. (number_view x.0, x.1.now)) result (statement_at bytes.now) }
{
    let (session, rest) = read_session(bytes)?;
    let (txn, rest) = read_u64(rest)?;
    let (index, rest) = read_u32(rest)?;
    let statement = Stmt {
        session,
        txn: txn.cast_signed(),
        index,
    };
    Ok((statement, rest))
}

/// Reads the operands of an insert.
#[tactic(auto, unfolding(crate::specs::Readers::insert_at))]
fn read_insert(alloc: Global, bytes: &[u8]) -> Result<(OpWords, &[u8]), RecordFault>
    ensures found { Finds (λ x. (operation_view x.0, x.1.now)) result (insert_at bytes.now) }
    ensures fits { IfOk result (λ x. IsWritableOperation (operation_view x.0)) }
{
    let (document, rest) = read_document(alloc, bytes)?;
    Ok((OpWords::Insert(document), rest))
}

/// Reads the operands of an update.
#[tactic(auto, unfolding(crate::specs::Readers::update_at))]
fn read_update(alloc: Global, bytes: &[u8]) -> Result<(OpWords, &[u8]), RecordFault>
    ensures found { Finds (λ x. (operation_view x.0, x.1.now)) result (update_at bytes.now) }
    ensures fits { IfOk result (λ x. IsWritableOperation (operation_view x.0)) }
{
    let (filter, rest) = read_document(alloc, bytes)?;
    let (change, rest) = read_document(alloc, rest)?;
    let (upsert, rest) = read_byte(rest)?;
    let op = OpWords::Update {
        filter,
        change,
        upsert: upsert == 0x01,
    };
    Ok((op, rest))
}

/// Reads the operands of a delete.
#[tactic(auto, unfolding(crate::specs::Readers::delete_at))]
fn read_delete(alloc: Global, bytes: &[u8]) -> Result<(OpWords, &[u8]), RecordFault>
    ensures found { Finds (λ x. (operation_view x.0, x.1.now)) result (delete_at bytes.now) }
    ensures fits { IfOk result (λ x. IsWritableOperation (operation_view x.0)) }
{
    let (filter, rest) = read_document(alloc, bytes)?;
    Ok((OpWords::Delete { filter }, rest))
}

/// Reads what a statement does.
#[tactic(auto, unfolding(crate::specs::Readers::operation_at))]
pub fn read_operation(alloc: Global, bytes: &[u8]) -> Result<(OpWords, &[u8]), RecordFault>
    ensures found { Finds (λ x. (operation_view x.0, x.1.now)) result (operation_at bytes.now) }
    ensures fits { IfOk result (λ x. IsWritableOperation (operation_view x.0)) }
{
    let (kind, rest) = read_byte(bytes)?;
    match kind {
        0x01 => read_insert(alloc, rest),
        0x02 => read_update(alloc, rest),
        0x03 => read_delete(alloc, rest),
        _ => Err(RecordFault::NoRecord),
    }
}

/// Reads the outcome of a statement.
#[tactic(auto, unfolding(crate::specs::Readers::outcome_at))]
pub fn read_reply(alloc: Global, bytes: &[u8]) -> Result<(Reply, &[u8]), RecordFault>
    ensures found { Finds (λ x. (outcome_view x.0, x.1.now)) result (outcome_at bytes.now) }
    ensures fits { IfOk result (λ x. IsWritableKey (outcome_view x.0).upserted) }
{
    let (n, rest) = read_u32(bytes)?;
    let (modified, rest) = read_u32(rest)?;
    let (upserted, rest) = read_option_key(alloc, rest)?;
    let (code, rest) = read_u32(rest)?;
    let reply = Reply {
        n,
        modified,
        upserted,
        code: code.cast_signed(),
    };
    Ok((reply, rest))
}
