//! Reading the documents of a message whose outline is valid.

ghost use Rattle.std.specs.Prelude.{◌≡◌, ◌≤◌, ◌++◌, ◌∷◌, [], ℕ, IfOk, List, length};
ghost use Rattle.std.specs.List.{AllByRecursion, concat, flat_map};
ghost use Rattle.bson_model.specs.Faults.{HasFirstFault};
ghost use Rattle.opmsg_model.specs.MessageSizes.{IsSmall};
ghost use Rattle.opmsg_model.specs.Messages.{most_bytes};
ghost use Rattle.bson_model.specs.Tree.{Fields};
ghost use Rattle.opmsg_model.specs.Requests.{AreKept, FirstFaulty, Hold, IsKept};
ghost use Rattle.opmsg_model.specs.Sections.{IsSection, IsStated, Section, bodies, documents_in, section_bytes, sequence_bytes, sequence_section};
ghost use Rattle.opmsg_frames.specs.RequestMeanings.{ReadOutcome};

use crate::lists::{DocList, Sequence, SequenceList};
use crate::sections::{Next, has_stated, next_section, number_at, split_sequence};
use bson_values::{BsonFault, Document, Text, read};
use std::alloc::Global;

/// Reads all of the bytes as one document.
pub(crate) fn read_whole(alloc: Global, bytes: &[u8]) -> Result<Document, BsonFault>
    ensures kept { IsStated bytes.now →
        ReadOutcome (λ doc. IsKept bytes.now doc) (λ fault offset. HasFirstFault bytes.now fault offset) result }
    ensures small { length bytes.now ≤ most_bytes → IfOk result (λ doc. IsSmall doc) }
{
    let (doc, _) = read(alloc, bytes)?;
    Ok(doc)
}

/// Reads documents, one after the other.
fn read_documents(alloc: Global, bytes: &[u8]) -> Result<DocList, BsonFault>
    requires { length bytes.now ≤ most_bytes }
    ensures { (documents : List (List ℕ)) → bytes.now ≡ concat documents → AllByRecursion IsStated documents →
        ReadOutcome (λ list. AreKept documents list) (λ fault offset. FirstFaulty documents fault offset) result }
{
    let mut list = DocList::new(alloc);
    let mut rest = bytes;
    while has_stated(rest) {
        let (document, behind) = rest.split_at(number_at(rest, 0) as usize);
        list.push(read_whole(alloc, document)?)?;
        rest = behind;
    }
    Ok(list)
}

/// Reads a document sequence and appends it.
fn take_sequence(
    alloc: Global,
    content: &[u8],
    sequences: &mut SequenceList,
) -> Result<(), BsonFault>
    requires { length content.now ≤ most_bytes }
    ensures { (identifier : List ℕ) (documents : List (List ℕ)) → content.now ≡ sequence_bytes identifier documents →
        IsSection (sequence_section identifier documents) →
        ReadOutcome (λ done. (mss : List Fields) × AreKept documents mss × (sequences.new ≡ sequences.old ++ (identifier, mss) ∷ []))
        (λ fault offset. FirstFaulty documents fault offset) result }
{
    match split_sequence(content) {
        Some((identifier, documents)) => {
            let identifier = Text::of(alloc, identifier)?;
            let documents = read_documents(alloc, documents)?;
            sequences.push(Sequence {
                identifier,
                documents,
            })?;
            Ok(())
        }
        None => Ok(()),
    }
}

/// Reads the documents of sections, of which exactly one is of kind 0.
pub(crate) fn read_sections(
    alloc: Global,
    bytes: &[u8],
) -> Result<(Document, SequenceList), BsonFault>
    requires { length bytes.now ≤ most_bytes }
    ensures { (sections : List Section) → bytes.now ≡ flat_map section_bytes sections →
        AllByRecursion IsSection sections → bodies sections ≡ 1 →
        ReadOutcome (λ x. Hold sections (x.0 ∷ []) x.1) (λ fault offset. FirstFaulty (documents_in sections) fault offset) result }
{
    let mut doc = Document::new(alloc);
    let mut sequences = SequenceList::new(alloc);
    let mut rest = bytes;
    'sections: loop {
        match next_section(rest) {
            Next::Nothing => return Ok((doc, sequences)),
            // The outline is valid, so neither of these occurs.
            Next::UnknownKind => return Ok((doc, sequences)),
            Next::BadSize => return Ok((doc, sequences)),
            Next::Body { document, behind } => {
                doc = read_whole(alloc, document)?;
                rest = behind;
            }
            Next::Sequence { content, behind } => {
                take_sequence(alloc, content, &mut sequences)?;
                rest = behind;
            }
        }
    }
}
