//! The definitions on bytes that one can check by hand.

ghost use Rattle.std.specs.Prelude.{◌≡◌, ℕ, List, [], ◌∷◌, false, length, pos};
ghost use Rattle.bson_model.specs.SampleDocuments.{id_bytes, id_document, nested};
ghost use Rattle.bson_model.specs.Grammar.{IsWithinDepth, ReadsAs};
ghost use Rattle.bson_model.specs.Spelling.{written};
ghost use Rattle.bson_model.specs.Faults.{Fault, HasFirstFault, Holder, boolean_fault, depth_fault, ends_at, faulty, first_step, holder_form, length_fault, short_fault, string_fault, trailing_fault, type_fault, value_step, Walks};

/// The smallest document, of five bytes, is walked to its end and so has no fault.
pub fn faultless()
    ensures end { Walks (5 ∷ 0 ∷ 0 ∷ 0 ∷ 0 ∷ []) (first_step (5 ∷ 0 ∷ 0 ∷ 0 ∷ 0 ∷ [])) (ends_at 5) }
    ensures none { (fault : Fault) (offset : ℕ) → HasFirstFault (5 ∷ 0 ∷ 0 ∷ 0 ∷ 0 ∷ []) fault offset → ⊥ }
{}

/// One fault of each kind: no bytes; the length 4; the type 01, which is not supported; a name without its 00; the boolean 02; a last 00 at offset 4 where
/// the length says 5.
pub fn faults()
    ensures short { HasFirstFault [] short_fault 0 }
    ensures length { HasFirstFault (4 ∷ 0 ∷ 0 ∷ 0 ∷ []) length_fault 0 }
    ensures type_byte { HasFirstFault (5 ∷ 0 ∷ 0 ∷ 0 ∷ 1 ∷ []) (type_fault 1) 4 }
    ensures text { HasFirstFault (7 ∷ 0 ∷ 0 ∷ 0 ∷ 0x0A ∷ 97 ∷ 98 ∷ []) string_fault 5 }
    ensures boolean { HasFirstFault (8 ∷ 0 ∷ 0 ∷ 0 ∷ 0x08 ∷ 0 ∷ 2 ∷ 0 ∷ []) boolean_fault 6 }
    ensures trailing { HasFirstFault (6 ∷ 0 ∷ 0 ∷ 0 ∷ 0 ∷ 0 ∷ []) trailing_fault 4 }
{}

/// Two faults at one offset: a nested document states 7 bytes where the outer one has 6 left, and the bytes end before either; the fault is that of its
/// length. A document nested in 100 others has a fault of depth.
pub fn ordered()
    ensures inside { HasFirstFault (12 ∷ 0 ∷ 0 ∷ 0 ∷ 0x03 ∷ 0 ∷ 7 ∷ 0 ∷ 0 ∷ 0 ∷ []) length_fault 6 }
    ensures depth { (h : Holder) (outer : List Holder) → h.end ≡ 9 → length outer ≡ 99 → value_step (5 ∷ 0 ∷ 0 ∷ 0 ∷ 0 ∷ []) (holder_form false) 0 h outer ≡ faulty depth_fault 0 }
{}

/// `{_id: 1}` in bytes, and documents nested in 99 and in 100 others.
pub fn spelled()
    ensures document { written (id_document (pos 1)) ≡ id_bytes }
    ensures reads { ReadsAs id_bytes (id_document (pos 1)) × (ReadsAs [] (id_document (pos 1)) → ⊥) }
    ensures depth { IsWithinDepth (nested 99) × (IsWithinDepth (nested 100) → ⊥) }
{}
