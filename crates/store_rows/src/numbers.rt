//! Times of moments, and the codes of errors.

use cluster_base::{Code, moment_time, retained};
use fixtures::{RowFault, Rows, field, number};
use std::alloc::Global;

/// `MOMENT | TIME | OLDEST`: the time of the moment, and the oldest that can still be read then.
#[derive(Drop)]
pub struct Moments;

impl Rows for Moments {
    fn holds(&mut self, _alloc: Global, row: &str) -> Result<bool, RowFault> {
        let (moment, rest) = field(row);
        let (time, oldest) = field(rest);
        let moment = number(moment)?;
        let time: u64 = number(time)?;
        let oldest: u64 = number(oldest)?;
        Ok(moment_time(moment).0 == time && retained(moment).0 == oldest)
    }
}

/// `NUMBER | NAME`
#[derive(Drop)]
pub struct Codes;

impl Rows for Codes {
    fn holds(&mut self, _alloc: Global, row: &str) -> Result<bool, RowFault> {
        let (digits, name) = field(row);
        let wanted: i32 = number(digits)?;
        let Some(code) = code_of(wanted) else {
            return Err(RowFault::Form);
        };
        Ok(code.number() == wanted && code.name() == name)
    }
}

// Returns the code that the manual gives the number.
fn code_of(number: i32) -> Option<Code> {
    match number {
        2 => Some(Code::BadValue),
        9 => Some(Code::FailedToParse),
        14 => Some(Code::TypeMismatch),
        15 => Some(Code::Overflow),
        20 => Some(Code::IllegalOperation),
        22 => Some(Code::InvalidBson),
        28 => Some(Code::PathNotViable),
        43 => Some(Code::CursorNotFound),
        50 => Some(Code::MaxTimeExpired),
        59 => Some(Code::CommandNotFound),
        61 => Some(Code::ShardKeyNotFound),
        66 => Some(Code::ImmutableField),
        70 => Some(Code::ShardNotFound),
        72 => Some(Code::InvalidOptions),
        73 => Some(Code::InvalidNamespace),
        91 => Some(Code::ShutdownInProgress),
        96 => Some(Code::OperationFailed),
        112 => Some(Code::WriteConflict),
        117 => Some(Code::ConflictingOperation),
        118 => Some(Code::NamespaceNotSharded),
        146 => Some(Code::ExceededMemoryLimit),
        177 => Some(Code::ZoneNotFound),
        178 => Some(Code::RangeOverlapConflict),
        225 => Some(Code::TransactionTooOld),
        239 => Some(Code::SnapshotTooOld),
        286 => Some(Code::ChangeStreamHistoryLost),
        292 => Some(Code::QueryExceededMemory),
        10334 => Some(Code::ObjectTooLarge),
        11000 => Some(Code::DuplicateKey),
        13388 => Some(Code::StaleConfig),
        _ => None,
    }
}
