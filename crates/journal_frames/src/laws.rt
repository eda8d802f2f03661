//! The laws of the format.
ghost use Rattle.std.specs.Prelude.{◌≡◌, ℕ, ◌++◌, ◌∷◌, [], List};
ghost use Rattle.journal_frames.specs.Files.{IsDamaged, Stands, records_in};

/// A file has one reading: one list of records, or damage at one offset, and not both.
pub fn one_reading()
    ensures records { (file : List ℕ) (records others : List (List ℕ)) → Stands file records → Stands file others → records ≡ others }
    ensures damage { (file : List ℕ) (offset other : ℕ) → IsDamaged file offset → IsDamaged file other → offset ≡ other }
    ensures list { (file : List ℕ) (records : List (List ℕ)) → Stands file records → records_in file ≡ records }
    ensures apart { (file : List ℕ) (records : List (List ℕ)) (offset : ℕ) → Stands file records → IsDamaged file offset → ⊥ }
{}

/// Worked files: an empty one, one with a closed gate, one with a record of the byte 7, and one that ends in a record.
pub fn worked_files()
    ensures empty { Stands [] [] × (Stands [] ([] ∷ []) → ⊥) }
    ensures closed { Stands (0 ∷ []) [] × (IsDamaged (0 ∷ []) 0 → ⊥) }
    ensures one { Stands (1 ∷ 1 ∷ 0 ∷ 0 ∷ 0 ∷ 0 ∷ 0 ∷ 0 ∷ 0 ∷ 7 ∷ 0 ∷ []) ((7 ∷ []) ∷ []) }
    ensures cut_short { IsDamaged (1 ∷ 1 ∷ 0 ∷ 0 ∷ 0 ∷ 0 ∷ 0 ∷ 0 ∷ 0 ∷ 7 ∷ []) 0 }
{}
