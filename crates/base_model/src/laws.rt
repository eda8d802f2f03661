//! The law between the names of namespaces and the test of them.

ghost use Rattle.std.specs.Prelude.{◌≡◌, ℕ, List, false, true};
ghost use Rattle.base_model.specs.Names.{MakeNamespace, is_open_namespace, is_reserved};

/// The test of a namespace passes the two names that make one, unless the database is reserved.
#[tactic(auto, using(crate::proofs::OpenNames::makes, crate::proofs::OpenNames::open_namespace))]
pub fn open_namespaces()
    ensures passes { (database collection : List ℕ) → MakeNamespace database collection → is_reserved database ≡ false → is_open_namespace database collection ≡ true }
    ensures makes { (database collection : List ℕ) → is_open_namespace database collection ≡ true → MakeNamespace database collection × (is_reserved database ≡ false) }
{}
