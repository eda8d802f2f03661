//! Why the records of a group were not appended.

ghost use Rattle.std.specs.Prelude.{◌≡◌};
ghost use Rattle.group_steps.specs.Collected.{fault_of};

use node_traits::NotTaken;

/// Why the records of several steps were not appended. The node has taken the steps in memory, so that it must be opened again from its log.
#[derive(Clone, Copy, Debug, PartialEq, Eq)]
pub enum GroupFault {
    /// The disk failed; its count of faults is shown. All of the records are stored or none is, and the log must be reopened.
    Disk { faults: u64 },
    /// Out of memory: nothing was written, and the log is unchanged.
    Memory,
}

impl GroupFault {
    /// Returns the fault of an append, which is never that of a last step.
    pub(crate) fn of(fault: NotTaken) -> GroupFault
        ensures { result ≡ fault_of fault }
    {
        match fault {
            NotTaken::Disk { faults } => GroupFault::Disk { faults },
            NotTaken::Steps => GroupFault::Memory,
            NotTaken::Memory => GroupFault::Memory,
        }
    }
}
