//! What opens nodes again.

ghost use Rattle.std.specs.Prelude.{◌≡◌, ℕ, ◌≤◌, IfErr, IfOk, IsTrue, OnOk};
ghost use Rattle.outside.specs.Causes.{Rose};
ghost use Rattle.outside.specs.Logs.{ByFault};
ghost use Rattle.node_replay.specs.Durable.{DurableState};
ghost use Rattle.driver_steps.specs.Restarts.{IsOpenedAs, IsReread};

use bson_values::Memory;
use node_traits::Node;
use outside::log::{Log, LogFault, RecordList};
use std::alloc::Global;

/// Opens the nodes of a driver again, each on the records of its log.
pub trait Opens<N: Node, L: Log> {
    // What the node at a place is where its journal is empty.
    ghost part: { Self → ℕ → DurableState };

    /// Reads the records of a log again and returns them; it stays open.
    ///
    /// # Errors
    /// - `LogFault::Disk` only if the disk met a fault: then nothing can be appended any more.
    /// - `LogFault::Memory` if memory runs out, or if records that are not observable can't be read again.
    fn reopen(&self, log: &mut L) -> Result<RecordList, LogFault>
        requires { IsTrue (L.facts.is_open log.old) }
        ensures found { IfOk result (λ list. IsTrue L.facts.tells → list ≡ L.facts.records log.old) }
        ensures reread { IsReread L.facts log.old log.new }
        ensures open { OnOk result (IsTrue (L.facts.is_open log.new)) }
        ensures failed { IfErr result (λ e. ByFault e
            (λ faults. (faults ≡ L.facts.fault_count log.new) × Rose (L.facts.fault_count log.old) (L.facts.fault_count log.new))
            (IsTrue (L.facts.is_open log.new) × (L.facts.fault_count log.new ≡ L.facts.fault_count log.old))) }
        ensures calm { OnOk result (L.facts.fault_count log.new ≡ L.facts.fault_count log.old) }
        ensures later { L.facts.fault_count log.old ≤ L.facts.fault_count log.new }
        ensures place { L.facts.place log.new ≡ L.facts.place log.old };

    /// Returns the node of a place, opened on the records of its log, before its first step. Returns `Memory` if memory runs out, or if records that are not
    /// observable are none of this node.
    fn node(&self, alloc: Global, at: usize, records: RecordList) -> Result<N, Memory>
        ensures { IfOk result (λ node. IsOpenedAs (part self.now at) records (N.state node)) };
}
