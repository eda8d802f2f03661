//! The definitions on values that one can check by hand.

ghost use Rattle.std.specs.Prelude.{◌≡◌, ◌⊎◌, ◌≤◌, ℕ, [], ◌∷◌, ◌-◌, ◌^◌, List, false, take, true};
ghost use Rattle.outside.specs.Causes.{Rose};
ghost use Rattle.outside.specs.Devices.{SourceGave, SourceIsUntouched, SinkIsUntouched, source_call, sink_call, DisksAreInPlace, NoneFell, OneRose, disks_call};
ghost use Rattle.outside.specs.Disks.{Cut, Elapses, Follows, Holds, LeavesOnly, Only, Torn, Within};
ghost use Rattle.outside.specs.Logs.{ByFault, WithOrWithout};
ghost use Rattle.outside.specs.declared.log.LogFault.TheVariants.{Disk as DiskFault, Memory};
ghost use Rattle.outside.specs.Streams.{Put, Took};

/// A count that rises, one that is unchanged, and one at its greatest value.
pub fn counted()
    ensures rises { Rose 0 1 × (Rose 1 1 → ⊥) }
    ensures last { Rose (2 ^ 64 - 1) (2 ^ 64 - 1) }
{}

/// Bytes are taken from the front of those that were left, and appended to those written before, where a stream is observable.
pub fn moved()
    ensures taken { Took true (1 ∷ 2 ∷ []) (1 ∷ []) (2 ∷ []) × (Took true (1 ∷ 2 ∷ []) (2 ∷ []) (1 ∷ []) → ⊥) }
    ensures put { Put true (1 ∷ []) (2 ∷ []) (1 ∷ 2 ∷ []) × (Put true (1 ∷ []) (2 ∷ []) (2 ∷ 1 ∷ []) → ⊥) }
    ensures untold { Took false [] (1 ∷ []) [] × Put false [] (1 ∷ []) [] }
{}

/// Counts of faults of three disks, of which one rises, none rises, and one falls.
pub fn counted_each()
    ensures one { OneRose (0 ∷ 0 ∷ 0 ∷ []) (0 ∷ 1 ∷ 0 ∷ []) × (OneRose (0 ∷ 0 ∷ []) (0 ∷ 0 ∷ []) → ⊥) }
    ensures none_fell { NoneFell (0 ∷ 1 ∷ []) (0 ∷ 2 ∷ []) × (NoneFell (0 ∷ 1 ∷ []) (1 ∷ 0 ∷ []) → ⊥) }
    ensures missing { NoneFell (0 ∷ 1 ∷ []) (0 ∷ []) → ⊥ }
{}

/// A source, here the bytes that are left, and a sink, here the bytes written to it, over a call.
pub fn streamed()
    ensures gave { SourceGave (source_call true (λ (left : List ℕ). left) (λ _. 0) (1 ∷ []) []) (1 ∷ []) }
    ensures moved { SourceIsUntouched (source_call true (λ (left : List ℕ). left) (λ _. 0) (1 ∷ []) []) → ⊥ }
    ensures rose { SourceIsUntouched (source_call true (λ (n : ℕ). []) (λ n. n) 0 1) → ⊥ }
    ensures untouched { SinkIsUntouched (sink_call true (λ (held : List ℕ). held) (λ _. 0) (1 ∷ []) (1 ∷ [])) }
{}

/// Disks, here the bytes of their places, over a call: each in its place, or exchanged.
pub fn placed()
    ensures in_place { DisksAreInPlace (disks_call true (λ _. []) (λ (place : List ℕ). place) (λ _. 0)
        ((1 ∷ []) ∷ (2 ∷ []) ∷ []) ((1 ∷ []) ∷ (2 ∷ []) ∷ [])) }
    ensures exchanged { DisksAreInPlace (disks_call true (λ _. []) (λ (place : List ℕ). place) (λ _. 0)
        ((1 ∷ []) ∷ (2 ∷ []) ∷ []) ((2 ∷ []) ∷ (1 ∷ []) ∷ [])) → ⊥ }
{}

/// Bytes 1 2 3 and a piece that is written over them, past their end, and after a gap of any bytes.
pub fn held()
    ensures over { Holds 1 (9 ∷ []) (1 ∷ 2 ∷ 3 ∷ []) (1 ∷ 9 ∷ 3 ∷ []) }
    ensures past { Holds 3 (9 ∷ []) (1 ∷ 2 ∷ 3 ∷ []) (1 ∷ 2 ∷ 3 ∷ 9 ∷ []) }
    ensures gap { Holds 4 (9 ∷ []) (1 ∷ 2 ∷ 3 ∷ []) (1 ∷ 2 ∷ 3 ∷ 7 ∷ 9 ∷ []) }
    ensures elsewhere { Holds 1 (9 ∷ []) (1 ∷ 2 ∷ 3 ∷ []) (1 ∷ 9 ∷ 4 ∷ []) → ⊥ }
{}

/// A write of two bytes that was cut short results in any bytes in its range, and the others unchanged.
pub fn torn()
    ensures range { Torn 1 2 (1 ∷ 2 ∷ 3 ∷ 4 ∷ []) (1 ∷ 8 ∷ 7 ∷ 4 ∷ []) }
    ensures grown { Torn 1 2 (1 ∷ []) (1 ∷ 8 ∷ []) }
    ensures elsewhere { Torn 1 2 (1 ∷ 2 ∷ 3 ∷ 4 ∷ []) (1 ∷ 2 ∷ 3 ∷ 5 ∷ []) → ⊥ }
    ensures shorter { Torn 1 2 (1 ∷ 2 ∷ 3 ∷ 4 ∷ []) (1 ∷ 2 ∷ 3 ∷ []) → ⊥ }
{}

/// A cut to one byte that was interrupted results in one byte or more, a prefix of the file.
pub fn cut()
    ensures whole { Cut 1 (1 ∷ 2 ∷ 3 ∷ []) (1 ∷ []) × Cut 1 (1 ∷ 2 ∷ 3 ∷ []) (1 ∷ 2 ∷ 3 ∷ []) }
    ensures between { Cut 1 (1 ∷ 2 ∷ 3 ∷ []) (1 ∷ 2 ∷ []) }
    ensures too_far { Cut 1 (1 ∷ 2 ∷ 3 ∷ []) [] → ⊥ }
    ensures changed { Cut 1 (1 ∷ 2 ∷ 3 ∷ []) (1 ∷ 9 ∷ []) → ⊥ }
{}

/// The outcomes of a crash where each is one from before, or one after the step.
pub fn outcomes()
    ensures within { Within (λ c. (c ≡ []) ⊎ (c ≡ 1 ∷ [])) (λ c. c ≡ 1 ∷ []) }
    ensures not_within { Within (λ c. c ≡ 1 ∷ []) (λ c. (c ≡ []) ⊎ (c ≡ 1 ∷ [])) → ⊥ }
    ensures only { Only (1 ∷ []) (λ c. c ≡ 1 ∷ []) × (Only (1 ∷ []) (λ c. (c ≡ []) ⊎ (c ≡ 1 ∷ [])) → ⊥) }
    ensures follows { Follows (Cut 1) (λ c. c ≡ 1 ∷ 2 ∷ []) (λ c. c ≡ 1 ∷ []) }
    ensures not_follows { Follows (Cut 1) (λ c. c ≡ 1 ∷ 2 ∷ []) (λ c. c ≡ []) → ⊥ }
{}

/// Time passes by one call. It neither drops an outcome that was possible before nor adds one.
pub fn time()
    ensures goes_on { Elapses 0 1 (λ t c. c ≡ take t (1 ∷ [])) (λ t c. c ≡ take t (1 ∷ [])) (λ c. c ≡ 1 ∷ []) }
    ensures back { Elapses 1 0 (λ _ c. c ≡ []) (λ _ c. c ≡ []) (λ c. c ≡ []) → ⊥ }
    ensures forgets { Elapses 0 0 (λ _ c. c ≡ []) (λ _ _. ⊥) (λ c. c ≡ []) → ⊥ }
    ensures makes_up { Elapses 0 0 (λ _ _. ⊥) (λ _ c. c ≡ []) (λ _. ⊥) → ⊥ }
    ensures changes_the_past { Elapses 0 1 (λ _ _. ⊥) (λ _ c. c ≡ []) (λ c. c ≡ []) → ⊥ }
{}

/// A disk, here the number of its moment, whose file was always empty.
pub fn each_moment()
    ensures leaves { LeavesOnly (λ (n : ℕ). n) (λ _ _ c. c ≡ []) 0 1 (λ c. c ≡ []) }
    ensures not_leaves { LeavesOnly (λ (n : ℕ). n) (λ _ _ c. c ≡ []) 0 1 (λ c. c ≡ 1 ∷ []) → ⊥ }
{}

/// What a log returns where its disk failed, and where memory ran out; two records of which both are stored, none, or one alone.
pub fn logged()
    ensures failed { ByFault (DiskFault 3) (λ n. n ≡ 3) ⊥ × (ByFault (DiskFault 3) (λ n. n ≡ 4) (Unit {0}) → ⊥) }
    ensures wanted { ByFault Memory (λ _. ⊥) (Unit {0}) × (ByFault Memory (λ _. Unit {0}) ⊥ → ⊥) }
    ensures with { WithOrWithout (λ rs. rs ≡ (1 ∷ []) ∷ (2 ∷ []) ∷ []) [] ((1 ∷ []) ∷ (2 ∷ []) ∷ []) }
    ensures without { WithOrWithout (λ rs. rs ≡ []) [] ((1 ∷ []) ∷ (2 ∷ []) ∷ []) }
    ensures one_of_two { WithOrWithout (λ rs. rs ≡ (1 ∷ []) ∷ []) [] ((1 ∷ []) ∷ (2 ∷ []) ∷ []) → ⊥ }
{}
