//! The definitions on values that one can check by hand.

ghost use Rattle.std.specs.Prelude.{◌≡◌, [], ◌∷◌, take};
ghost use Rattle.outside.specs.Disks.{Elapses, Only};
ghost use Rattle.outside_memory.specs.Calls.{left_after, replayed};
ghost use Rattle.outside_memory.specs.declared.call.Call.TheVariants.{Cut as CutTo, Sync, Write};

/// A write and a sync stay. A write without a sync leaves any bytes in its range and nothing elsewhere, and a cut without
/// one any length between.
pub fn crashes()
    ensures replayed { replayed (1 ∷ 2 ∷ 3 ∷ []) (Write 1 (9 ∷ []) ∷ CutTo 2 ∷ Sync ∷ []) ≡ 1 ∷ 9 ∷ [] }
    ensures synced { Only (1 ∷ 9 ∷ 3 ∷ []) (left_after (1 ∷ 2 ∷ 3 ∷ []) (Write 1 (9 ∷ []) ∷ Sync ∷ [])) }
    ensures stays { left_after (1 ∷ 2 ∷ 3 ∷ []) (Write 1 (9 ∷ []) ∷ Sync ∷ []) (1 ∷ 9 ∷ 3 ∷ []) }
    ensures any_byte { left_after (1 ∷ 2 ∷ 3 ∷ []) (Write 1 (9 ∷ []) ∷ []) (1 ∷ 7 ∷ 3 ∷ []) }
    ensures elsewhere { left_after (1 ∷ 2 ∷ 3 ∷ []) (Write 1 (9 ∷ []) ∷ []) (1 ∷ 9 ∷ 4 ∷ []) → ⊥ }
    ensures any_length { left_after (1 ∷ 2 ∷ 3 ∷ []) (CutTo 1 ∷ []) (1 ∷ 2 ∷ []) }
    ensures no_other { left_after (1 ∷ 2 ∷ 3 ∷ []) (CutTo 1 ∷ []) (1 ∷ 9 ∷ []) → ⊥ }
{}

/// Time advances by one call.
#[tactic(auto, using(crate::proofs::Crashes::elapses_listed))]
pub fn time()
    ensures goes_on { Elapses 0 1 (λ t. left_after [] (take t [])) (λ t. left_after [] (take t (Write 0 (1 ∷ []) ∷ [])))
        (left_after [] (Write 0 (1 ∷ []) ∷ [])) }
{}
