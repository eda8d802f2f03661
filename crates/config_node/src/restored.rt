//! A catalogue that was started again.

ghost use Rattle.std.specs.Prelude.{◌≡◌, ◌≤◌};
ghost use Rattle.std.specs.List.{AllByRecursion};
ghost use Rattle.chunk_catalogue.specs.Catalogues.{changes_of};
ghost use Rattle.chunk_model.specs.Changes.{time_of};
ghost use Rattle.node_model.specs.States.{catalogue_state};
ghost use Rattle.config_node.specs.State.{state_of};

use crate::state::ConfigNode;
use chunk_catalogue::Catalogue;
use cluster_base::{NodeId, Time};
use node_traits::StepCount;
use std::alloc::Global;

impl ConfigNode {
    /// Returns the catalogue with this number and these changes, none of which is later than the time, before its first step.
    pub fn restored(alloc: Global, me: NodeId, time: Time, catalogue: Catalogue) -> ConfigNode
        requires { AllByRecursion (λ x. time_of x ≤ time.0) (changes_of catalogue) }
        ensures state { state_of result ≡ catalogue_state (record { me = me.0; time = time.0; changes = changes_of catalogue }) }
        ensures steps { result.steps ≡ 0 }
    {
        ConfigNode {
            alloc,
            me,
            steps: StepCount::new(),
            time,
            catalogue,
        }
    }
}
