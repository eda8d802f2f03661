//! The definitions on bytes that one can check by hand.

ghost use Rattle.std.specs.Prelude.{◌≡◌, ◌++◌, [], ◌∷◌, Some, None, replicate, ◌^◌};
ghost use Rattle.opmsg_model.specs.SampleMessages.{empty_document, header_stating, least_bytes};
ghost use Rattle.opmsg_model.specs.Frames.{Frames};
ghost use Rattle.opmsg_model.specs.Outline.{bad_flags, bad_kind, bad_length, bad_opcode, bad_section, faulty_outline, has_stated, message_outline, no_body, outline, partial_outline, too_long, two_bodies};
ghost use Rattle.opmsg_model.specs.Sections.{IsStated};

/// A header is checked once its 16 bytes are there: its length first, and then its opcode.
pub fn headers()
    ensures short { outline (replicate 15 0) ≡ partial_outline }
    ensures longest { outline (header_stating 48000000 2013) ≡ partial_outline }
    ensures too_long { outline (header_stating 48000001 1) ≡ faulty_outline too_long }
    ensures below { outline (header_stating 15 1) ≡ faulty_outline bad_length }
    ensures negative { outline (header_stating (2 ^ 31) 1) ≡ faulty_outline bad_length }
    ensures opcode { outline (header_stating 48000000 1) ≡ faulty_outline bad_opcode }
{}

/// The smallest request has 26 bytes. Flag bits 1 and 16 are allowed, and bits 0 and 2 are not.
#[tactic(auto, unfolding(crate::specs::Outline::sections_fault, crate::specs::Outline::behind_fault))]
pub fn least()
    ensures whole { outline (least_bytes 0) ≡ message_outline 26 }
    ensures more { outline (least_bytes 2) ≡ message_outline 26 }
    ensures ignored { outline (least_bytes (2 ^ 16)) ≡ message_outline 26 }
    ensures checksum { outline (least_bytes 1) ≡ faulty_outline bad_flags }
    ensures low { outline (least_bytes 4) ≡ faulty_outline bad_flags }
    ensures no_flags { outline (header_stating 16 2013) ≡ faulty_outline bad_flags }
    ensures document { IsStated empty_document }
{}

/// A bad kind is reported before a bad section, and both before a second document or a missing one.
#[tactic(auto, unfolding(crate::specs::Outline::sections_fault, crate::specs::Outline::behind_fault))]
pub fn sections()
    ensures kind { outline (header_stating 21 2013 ++ (0 ∷ 0 ∷ 0 ∷ 0 ∷ 2 ∷ [])) ≡ faulty_outline bad_kind }
    ensures size { outline (header_stating 26 2013 ++ (0 ∷ 0 ∷ 0 ∷ 0 ∷ 0 ∷ 6 ∷ 0 ∷ 0 ∷ 0 ∷ 0 ∷ [])) ≡ faulty_outline bad_section }
    ensures none { outline (header_stating 20 2013 ++ (0 ∷ 0 ∷ 0 ∷ 0 ∷ [])) ≡ faulty_outline no_body }
    ensures two { outline (header_stating 32 2013 ++ (0 ∷ 0 ∷ 0 ∷ 0 ∷ 0 ∷ empty_document ++ (0 ∷ empty_document))) ≡ faulty_outline two_bodies }
{}

/// The offset of a fault is that of its message.
pub fn placed()
    ensures first { Frames (header_stating 15 1) [] (header_stating 15 1) (Some (bad_length, 0)) }
    ensures nothing { Frames [] [] [] None }
{}
