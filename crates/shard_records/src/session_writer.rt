//! Writing what is stored of sessions as bytes.
//!
//! What is written comes after the bytes that were there. After an `Err` a part may be there too.

ghost use Rattle.std.specs.Prelude.{◌≡◌, ◌<◌, ◌^◌, ◌++◌, length, map, take, FitsSigned, OnOk};
ghost use Rattle.std.specs.List.{AllByRecursion, flat_map};
ghost use Rattle.record_model.specs.RecordFormat.{spelled_list};
ghost use Rattle.record_model.specs.MoveFormat.{IsSoundSessionRecord, IsSoundStatement, spelled_session_record, spelled_statement, spelled_transaction};
ghost use Rattle.std.specs.Int.{w64};
ghost use Rattle.shard_records.specs.Sizes.{IsWritableSession, IsWritableStatement};
ghost use Rattle.statement_views.specs.Views.{session_record_view, statement_record_view};

use crate::writer::{put_reply, put_session, put_u32, put_u64};
use bson_values::Memory;
use statement_views::{SessionRecord, StatementRecord};

/// Writes a statement that was done.
pub(crate) fn put_statement_record(kept: &StatementRecord, out: &mut Vec<u8>) -> Result<(), Memory>
    requires { IsWritableStatement (statement_record_view kept.now) }
    ensures ok { OnOk result (out.new.items ≡ out.old.items ++ spelled_statement (statement_record_view kept.now)) }
    ensures sound { OnOk result (IsSoundStatement (statement_record_view kept.now)) }
    ensures kept { take (length out.old.items) out.new.items ≡ out.old.items }
{
    put_u32(kept.index, out)?;
    put_u64(kept.time.0, out)?;
    put_reply(&kept.reply, out)
}

/// Writes these statements, one after another.
fn put_each_statement(records: &[StatementRecord], out: &mut Vec<u8>) -> Result<(), Memory>
    requires { AllByRecursion IsWritableStatement (map statement_record_view records.now) }
    ensures ok { OnOk result (out.new.items ≡ out.old.items ++ flat_map spelled_statement (map statement_record_view records.now)) }
    ensures sound { OnOk result (AllByRecursion IsSoundStatement (map statement_record_view records.now)) }
    ensures kept { take (length out.old.items) out.new.items ≡ out.old.items }
{
    for kept in records {
        put_statement_record(kept, out)?;
    }
    Ok(())
}

/// Writes the statements of a session: how many, and each.
fn put_statements(records: &[StatementRecord], out: &mut Vec<u8>) -> Result<(), Memory>
    requires count { length records.now < 2 ^ 32 }
    requires writable { AllByRecursion IsWritableStatement (map statement_record_view records.now) }
    ensures ok { OnOk result (out.new.items ≡ out.old.items ++ spelled_list spelled_statement (map statement_record_view records.now)) }
    ensures sound { OnOk result (AllByRecursion IsSoundStatement (map statement_record_view records.now)) }
    ensures kept { take (length out.old.items) out.new.items ≡ out.old.items }
{
    put_u32(records.len() as u32, out)?;
    put_each_statement(records, out)
}

/// Writes the number of a session's transaction; below zero that of the number and 2^64.
fn put_transaction(kept: &SessionRecord, out: &mut Vec<u8>) -> Result<(), Memory>
    ensures ok { OnOk result (out.new.items ≡ out.old.items ++ spelled_transaction kept.now.txn) }
    ensures fits { FitsSigned w64 kept.now.txn }
    ensures kept { take (length out.old.items) out.new.items ≡ out.old.items }
{
    put_u64(kept.txn.cast_unsigned(), out)
}

/// Writes what is stored of a session.
pub(crate) fn put_session_record(kept: &SessionRecord, out: &mut Vec<u8>) -> Result<(), Memory>
    requires { IsWritableSession (session_record_view kept.now) }
    ensures ok { OnOk result (out.new.items ≡ out.old.items ++ spelled_session_record (session_record_view kept.now)) }
    ensures sound { OnOk result (IsSoundSessionRecord (session_record_view kept.now)) }
    ensures kept { take (length out.old.items) out.new.items ≡ out.old.items }
{
    put_session(&kept.session, out)?;
    put_transaction(kept, out)?;
    put_statements(&kept.statements, out)
}

/// Writes these sessions, one after another.
fn put_each_session(records: &[SessionRecord], out: &mut Vec<u8>) -> Result<(), Memory>
    requires { AllByRecursion IsWritableSession (map session_record_view records.now) }
    ensures ok { OnOk result (out.new.items ≡ out.old.items ++ flat_map spelled_session_record (map session_record_view records.now)) }
    ensures sound { OnOk result (AllByRecursion IsSoundSessionRecord (map session_record_view records.now)) }
    ensures kept { take (length out.old.items) out.new.items ≡ out.old.items }
{
    for kept in records {
        put_session_record(kept, out)?;
    }
    Ok(())
}

/// Writes sessions: how many, and each.
pub(crate) fn put_sessions(records: &[SessionRecord], out: &mut Vec<u8>) -> Result<(), Memory>
    requires count { length records.now < 2 ^ 32 }
    requires writable { AllByRecursion IsWritableSession (map session_record_view records.now) }
    ensures ok { OnOk result (out.new.items ≡ out.old.items ++ spelled_list spelled_session_record (map session_record_view records.now)) }
    ensures sound { OnOk result (AllByRecursion IsSoundSessionRecord (map session_record_view records.now)) }
    ensures kept { take (length out.old.items) out.new.items ≡ out.old.items }
{
    put_u32(records.len() as u32, out)?;
    put_each_session(records, out)
}
