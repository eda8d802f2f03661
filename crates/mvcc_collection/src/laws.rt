//! The law of keys that compare equal.

ghost use Rattle.std.specs.Prelude.{◌≡◌, ℕ, true};
ghost use Rattle.bson_values.specs.Tree.{Datum};
ghost use Rattle.value_compare.specs.Order.{same_value};
ghost use Rattle.mvcc_collection.specs.Collections.{at_in, last_in, room_in};
ghost use Rattle.mvcc_collection.specs.declared.collection.Collection.{Collection};

/// Keys that compare equal are one, so the 32-bit and the 64-bit number 5 have the same versions.
#[tactic(auto, using(crate::proofs::Puts::same_documents, crate::proofs::Puts::same_last, crate::proofs::Puts::same_room))]
pub fn same_keys_are_one()
    ensures documents { (c : Collection) (a b : Datum) (t : ℕ) → same_value a b ≡ true → at_in c a t ≡ at_in c b t }
    ensures last { (c : Collection) (a b : Datum) → same_value a b ≡ true → last_in c a ≡ last_in c b }
    ensures room { (c : Collection) (a b : Datum) → same_value a b ≡ true → room_in c a ≡ room_in c b }
{}
