//! Why a node took no step.

ghost use Rattle.std.specs.Prelude.{◌≡◌};
ghost use Rattle.node_cell.specs.Standing.{halt_by};

use crate::view::Halt;
use group_steps::GroupFault;
use node_traits::NotTaken;

/// Why a node took no step.
#[derive(Clone, Copy, Debug, PartialEq, Eq)]
pub enum CellFault {
    /// The node takes no more steps.
    Halted(Halt),
    /// The step was not taken: the node is at its last step, or memory ran out.
    NotTaken(NotTaken),
}

/// Returns why a node takes no more steps after the records of a group were not appended.
pub(crate) fn halt_of(fault: GroupFault) -> Halt
    ensures { result ≡ halt_by fault }
{
    match fault {
        GroupFault::Disk { faults } => Halt::Disk { faults },
        GroupFault::Memory => Halt::Memory,
    }
}
