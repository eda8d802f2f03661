//! The laws of frames.

ghost use Rattle.std.specs.Prelude.{◌≡◌, ◌<◌, ◌++◌, ◌∷◌, [], ℕ, List, Option, Some, None, Ok, Err, drop, length, take};
ghost use Rattle.opmsg_model.specs.Frames.{Frames, IsFirst};
ghost use Rattle.opmsg_model.specs.Outline as wire;
ghost use Rattle.opmsg_model.specs.Outline.{faulty_outline, message_outline, outline, partial_outline};
ghost use Rattle.opmsg_model.specs.Requests.{IsRequest, Request};
ghost use Rattle.opmsg_frames.specs.Conversations.{AreMeant, IsConversation, OnlyTell, Step, answered, fed, given, new_framer};
ghost use Rattle.opmsg_frames.specs.FramerViews.{FramerView};
ghost use Rattle.opmsg_frames.specs.Outlines.{fault_view};
ghost use Rattle.opmsg_frames.specs.Readings.{PlacedFault};
ghost use Rattle.bson_model.specs.Grammar.{AreBytes};
ghost use Rattle.opmsg_model.specs.MessageSizes.{IsSmallBody};

use crate::fault::{FrameFault, Malformed};

/// A message or a fault at the beginning of the bytes remains there whatever bytes follow, and no prefix of a message is itself a message or a fault.
pub fn outline_stays()
    ensures whole { (bytes more : List ℕ) (n : ℕ) →
        outline bytes ≡ message_outline n → outline (bytes ++ more) ≡ message_outline n }
    ensures faulty { (bytes more : List ℕ) (fault : wire.FrameFault) →
        outline bytes ≡ faulty_outline fault → outline (bytes ++ more) ≡ faulty_outline fault }
    ensures partial { (bytes : List ℕ) (n k : ℕ) →
        outline bytes ≡ message_outline n → k < n → outline (take k bytes) ≡ partial_outline }
{}

/// The bytes of a request are a whole message, whatever bytes follow.
pub fn request_is_whole()
    ensures { (request : Request) (more : List ℕ) → IsRequest request →
        outline (request.bytes ++ more) ≡ message_outline (length request.bytes) }
{}

/// The documents of a request are within 100 levels and their encodings have at most 240,000,000 bytes, and the offset of its fault is within the longest
/// message.
pub fn request_is_small()
    ensures { (request : Request) → IsRequest request → IsSmallBody request.body }
{}

/// Bytes are at most one request.
pub fn one_request()
    ensures { (request other : Request) → AreBytes request.bytes → request.bytes ≡ other.bytes →
        IsRequest request → IsRequest other → request ≡ other }
{}

/// Bytes have at most one reading: these requests, this rest, and this fault at its offset, or none.
pub fn one_reading()
    ensures requests { (bytes rest more : List ℕ) (requests others : List Request) →
        (fault other : PlacedFault) → AreBytes bytes →
        Frames bytes requests rest fault → Frames bytes others more other → requests ≡ others }
    ensures rest { (bytes rest more : List ℕ) (requests others : List Request) →
        (fault other : PlacedFault) → AreBytes bytes →
        Frames bytes requests rest fault → Frames bytes others more other → rest ≡ more }
    ensures fault { (bytes rest more : List ℕ) (requests others : List Request) →
        (fault other : PlacedFault) → AreBytes bytes →
        Frames bytes requests rest fault → Frames bytes others more other → fault ≡ other }
{}

/// A whole message is a request of as many bytes, and all bytes have a reading.
pub fn some_reading()
    ensures request { (bytes : List ℕ) (n : ℕ) → AreBytes bytes → outline bytes ≡ message_outline n →
        (request : Request) × (n ≡ length request.bytes) × IsFirst bytes request (drop n bytes) }
    ensures reading { (bytes : List ℕ) → AreBytes bytes →
        (requests : List Request) × (rest : List ℕ) × (fault : PlacedFault) × Frames bytes requests rest fault }
{}

/// In whatever pieces the bytes are fed, and however often the next request is requested between them: the requests returned are the first requests of the
/// bytes fed, in order, and all of them where the last call returned none or a fault; this fault is the one in the bytes, at its offset, and every later call
/// returns it again.
pub fn every_cutting()
    ensures prefix { (steps : List Step) (end : FramerView) →
        AreBytes (fed steps) → IsConversation new_framer steps end →
        (requests : List Request) (rest : List ℕ) (fault : PlacedFault) → Frames (fed steps) requests rest fault →
        (first others : List Request) × (requests ≡ first ++ others) × AreMeant (given steps) first }
    ensures all { (steps : List Step) (end : FramerView) →
        IsConversation new_framer (steps ++ answered (Ok None) ∷ []) end →
        (requests : List Request) × AreMeant (given steps) requests × Frames (fed steps) requests end.bytes None }
    ensures fault { (steps : List Step) (fault : Malformed) (offset : ℕ) (end : FramerView) →
        IsConversation new_framer (steps ++ answered (Err (FrameFault.Malformed fault offset)) ∷ []) end →
        (requests : List Request) × AreMeant (given steps) requests
        × Frames (fed steps) requests end.bytes (Some (fault_view fault, offset)) }
    ensures again { (before after : List Step) (fault : Malformed) (offset : ℕ) (start end : FramerView) →
        IsConversation start (before ++ answered (Err (FrameFault.Malformed fault offset)) ∷ after) end →
        OnlyTell fault offset after }
{}
