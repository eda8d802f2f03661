//! Each delivery makes a world with the messages that wait in it lighter, so deliveries come to an end.

ghost use Rattle.std.specs.Prelude.{ℕ, List};
ghost use Rattle.node_model.specs.World.{World};
ghost use Rattle.node_replay.specs.Restarts.{EventOrStop, RunWithStops};
ghost use Rattle.node_progress.specs.Firsts.{IsFirst};
ghost use Rattle.node_weights.specs.Deliveries.{Delivers, Ends, EndsInOrder, Waiting, WereSent};
ghost use Rattle.node_weights.specs.Weights.{IsLower, weight_of};

/// In any world of any run from one that a call begins in, also where nodes stopped and were started again, or missed steps: whichever of the messages that
/// wait is delivered, and whether its receiver takes the step or misses it, what follows weighs less.
#[tactic(auto, using(crate::proofs::Endings::each_delivery_weighs_less))]
pub fn each_delivery_weighs_less()
    ensures { (first : World) (events : List EventOrStop) (x : Waiting) (next : Waiting) → IsFirst first → RunWithStops first events x.world → WereSent x
        → Delivers x next → IsLower (weight_of next) (weight_of x) }
{}

/// So deliveries end, in whatever order, if no node gets a moment or a request or stops between them: there is no endless chain of deliveries, each of a
/// message that waits.
#[tactic(auto, using(crate::proofs::Endings::deliveries_end))]
pub fn deliveries_end()
    ensures { (first : World) (events : List EventOrStop) (x : Waiting) → IsFirst first → RunWithStops first events x.world → WereSent x → Ends x }
{}

/// And so they do in order of sending, from any place on, as in the schedule of `pipe`: a round of it comes to an end.
#[tactic(auto, using(crate::proofs::InOrder::deliveries_in_order_end))]
pub fn deliveries_in_order_end()
    ensures { (first : World) (events : List EventOrStop) (w : World) (next : ℕ) → IsFirst first → RunWithStops first events w → EndsInOrder w next }
{}
