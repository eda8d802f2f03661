//! The records of a step, appended at once.

ghost use Rattle.std.specs.Prelude.{◌≡◌, ℕ, ◌≤◌, false, IfErr, IsTrue, OnOk};
ghost use Rattle.outside.specs.Causes.{Rose};
ghost use Rattle.node_traits.specs.Calls.{Appended, LeftOff, log_call};
ghost use Rattle.node_traits.specs.Effects.{ByNotTaken, is_at_last};

use crate::outputs::NotTaken;
use bson_values::Blob;
use outside::log::{Log, LogFault};

/// Appends the records of a step, all at once; with no record the log is not changed.
///
/// # Errors
/// - `NotTaken::Disk` only if the disk of the log met a fault: then all of the records are stored or none is.
/// - `NotTaken::Memory` if memory runs out: the log is unchanged.
pub fn append_records<L: Log>(log: &mut L, records: &[Blob]) -> Result<(), NotTaken>
    requires open { IsTrue (L.facts.is_open log.old) }
    ensures done { OnOk result (Appended (log_call L.facts log.old log.new) records.now) }
    ensures failed { IfErr result (λ e. ByNotTaken e
        (λ faults. LeftOff (log_call L.facts log.old log.new) records.now)
        (log.new ≡ log.old)) }
    ensures never_last { IfErr result (λ e. is_at_last e ≡ false) }
    ensures open { OnOk result (IsTrue (L.facts.is_open log.new)) }
    ensures kept { L.facts.holds log.old (L.facts.records log.old) → OnOk result (L.facts.holds log.new (L.facts.records log.new)) }
    ensures cause { IfErr result (λ e. ByNotTaken e
        (λ faults. (faults ≡ L.facts.fault_count log.new) × Rose (L.facts.fault_count log.old) (L.facts.fault_count log.new))
        (Unit {0})) }
    ensures calm { OnOk result (L.facts.fault_count log.new ≡ L.facts.fault_count log.old) }
    ensures later { L.facts.fault_count log.old ≤ L.facts.fault_count log.new }
    ensures place { L.facts.place log.new ≡ L.facts.place log.old }
{
    if records.is_empty() {
        return Ok(());
    }
    match log.append_all(records) {
        Ok(()) => Ok(()),
        Err(LogFault::Disk { faults }) => Err(NotTaken::Disk { faults }),
        Err(LogFault::Memory) => Err(NotTaken::Memory),
    }
}
