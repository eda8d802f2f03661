//! Commands that wait.

ghost use Rattle.std.specs.Prelude.{◌≡◌, ◌++◌, ◌∷◌, [], OnErr, OnOk, if◌then◌else◌};
ghost use Rattle.critical_section.specs.Waiting.{is_parked, same_wait};

use bson_values::Memory;
use cluster_base::RequestId;

/// A command that waits. A request is sent in turns, and a write has a statement in each of its parts, so these three tell commands
/// apart.
#[derive(Drop)]
pub struct Parked<C> {
    /// The request that the command belongs to.
    pub id: RequestId,
    /// The turn in which the command was sent.
    pub turn: u64,
    /// The index of the statement, 0 for a read.
    pub index: u32,
    /// The command.
    pub command: C,
}

/// Commands in the order in which they were parked.
pub type ParkedList<C> = Vec<Parked<C>>;

// Whether two commands have the same request, turn and index.
fn is_same<C>(parked: &Parked<C>, other: &Parked<C>) -> bool
    ensures { result ≡ same_wait parked.now other.now }
{
    parked.id == other.id && parked.turn == other.turn && parked.index == other.index
}

// Whether a command with the same request, turn and index is among the others.
pub(crate) fn is_parked<C>(list: &[Parked<C>], parked: &Parked<C>) -> bool
    ensures { result ≡ is_parked list.now parked.now }
{
    list.iter().any(|other| is_same(other, parked))
}
