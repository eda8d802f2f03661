//! Notes of all disks.

ghost use Rattle.std.specs.Prelude.{◌≡◌, ◌++◌, length, IsTrue};
ghost use Rattle.driver_steps.specs.Seats.{AreDurableWhileOpen, notes_of};

use crate::seat::Seat;
use node_traits::Node;
use outside::log::Log;
use outside::witness::Witness;

/// Shows the disk of each log to the sink, in order of the nodes. Where a log is open, all that its node wrote is in the file after a crash at this moment:
/// what is written to the sink after it may depend on that.
pub fn note_disks<N: Node, L: Log, K: Witness<L::Of>>(out: &mut K, seats: &Vec<Seat<N, L>>)
    ensures durable { AreDurableWhileOpen L.facts seats.now.items }
    ensures noted { IsTrue K.tells → K.noted out.new ≡ K.noted out.old ++ notes_of L.facts (length (K.held out.old)) seats.now.items }
    ensures held { K.held out.new ≡ K.held out.old }
    ensures faults { K.fault_count out.new ≡ K.fault_count out.old }
{
    'hosts: for seat in seats {
        out.note(seat.log.device());
    }
}

/// Shows the disk of each log to the sink, in order of the nodes, and then again: a cut, since at the end of the first row all disks are as they are shown.
pub fn note_cut<N: Node, L: Log, K: Witness<L::Of>>(out: &mut K, seats: &Vec<Seat<N, L>>)
    ensures durable { AreDurableWhileOpen L.facts seats.now.items }
    ensures noted { IsTrue K.tells → K.noted out.new ≡ (K.noted out.old ++ notes_of L.facts (length (K.held out.old)) seats.now.items)
        ++ notes_of L.facts (length (K.held out.old)) seats.now.items }
    ensures held { K.held out.new ≡ K.held out.old }
    ensures faults { K.fault_count out.new ≡ K.fault_count out.old }
{
    note_disks(out, seats);
    note_disks(out, seats);
}
