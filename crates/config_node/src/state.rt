//! What the catalogue keeps.

ghost use Rattle.std.specs.Prelude.{◌≤◌};
ghost use Rattle.std.specs.List.{AllByRecursion};
ghost use Rattle.std.proofs.Props.{props};
ghost use Rattle.chunk_catalogue.specs.Catalogues.{changes_of};
ghost use Rattle.chunk_model.specs.Changes.{time_of};

use chunk_catalogue::Catalogue;
use cluster_base::{NodeId, Time};
use node_traits::StepCount;
use std::alloc::Global;

/// The catalogue.
#[derive(Drop)]
pub struct ConfigNode {
    pub(crate) alloc: Global,
    pub(crate) me: NodeId,
    pub(crate) steps: StepCount,
    pub(crate) time: Time,
    pub(crate) catalogue: Catalogue,
    ghost past: { AllByRecursion (λ x. time_of x ≤ time.0) (changes_of catalogue) } by { Prim.hlevel props },
}
