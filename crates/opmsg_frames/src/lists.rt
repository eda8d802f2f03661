//! The documents of document sequences.

ghost use Rattle.std.specs.Prelude.{◌≡◌, ◌++◌, ◌∷◌, [], OnErr, OnOk};
ghost use Rattle.std.specs.List.{AllByRecursion};
ghost use Rattle.opmsg_model.specs.MessageSizes.{IsSmall};
ghost use Rattle.opmsg_frames.specs.Lists.{pairs_of};

use bson_values::{Document, Memory, Text};
use std::alloc::Global;
use std::marker::Model;

/// A sequence of documents, in order, each within the size that documents of a message have.
#[derive(Drop)]
pub struct DocList {
    documents: Vec<Document>,
}

impl Model for DocList {
    ghost use Rattle.std.specs.Prelude.{List};
    ghost use Rattle.std.specs.Coded.{coded_list};
    ghost use Rattle.bson_model.specs.Tree.{Fields};
    ghost use Rattle.bson_values.specs.Code.{fields_code};

    ghost Value = { List Fields };

    ghost coded = { coded_list fields_code };

    ghost view = { λ l. l.documents.items };

    ghost use Rattle.std.specs.List.{AllByRecursion};
    ghost use Rattle.opmsg_model.specs.MessageSizes.{IsSmall};

    ghost invariant = { λ l. AllByRecursion IsSmall l.documents.items };
}

impl DocList {
    /// Returns the empty list.
    pub fn new(alloc: Global) -> DocList
        ensures { result ≡ [] }
    {
        DocList {
            documents: Vec::new(alloc),
        }
    }

    /// Appends a document. Returns `Memory` if memory runs out, and then changes nothing.
    pub fn push(&mut self, document: Document) -> Result<(), Memory>
        requires small { IsSmall document }
        ensures ok { OnOk result (self.new ≡ self.old ++ document ∷ []) }
        ensures err { OnErr result (self.new ≡ self.old) }
    {
        self.documents.push(document)?;
        Ok(())
    }

    /// The documents, in order.
    pub fn as_slice(&self) -> &[Document]
        ensures documents { result.now ≡ self.now }
        ensures small { AllByRecursion IsSmall self.now }
    {
        self.documents.as_slice()
    }

    /// Returns the documents, in order. The list is taken apart, and nothing is copied.
    pub fn into_documents(self) -> Vec<Document>
        ensures documents { result.items ≡ self }
        ensures small { AllByRecursion IsSmall self }
    {
        self.documents
    }
}

/// A document sequence: its identifier and its documents (MongoDB Wire Protocol, "OP_MSG", Kind 1).
#[derive(Drop)]
pub struct Sequence {
    pub identifier: Text,
    pub documents: DocList,
}

/// A sequence of document sequences, in order.
#[derive(Drop)]
pub struct SequenceList {
    sequences: Vec<Sequence>,
}

impl Model for SequenceList {
    ghost use Rattle.std.specs.Prelude.{List, ℕ};
    ghost use Rattle.std.specs.Coded.{coded_list, coded×, coded_ℕ};
    ghost use Rattle.bson_model.specs.Tree.{Fields};
    ghost use Rattle.bson_values.specs.Code.{fields_code};

    ghost Value = { List (List ℕ × List Fields) };

    ghost coded = { coded_list (coded× (coded_list coded_ℕ) (coded_list fields_code)) };

    ghost use Rattle.opmsg_frames.specs.Lists.{pairs_of};

    ghost view = { λ l. pairs_of l.sequences.items };
}

impl SequenceList {
    /// Returns the empty list.
    pub fn new(alloc: Global) -> SequenceList
        ensures { result ≡ [] }
    {
        SequenceList {
            sequences: Vec::new(alloc),
        }
    }

    /// Appends a sequence. Returns `Memory` if memory runs out, and then changes nothing.
    #[tactic(auto, using(crate::proofs::Pairs::pairs_push))]
    pub fn push(&mut self, sequence: Sequence) -> Result<(), Memory>
        ensures ok { OnOk result (self.new ≡ self.old ++ (sequence.identifier, sequence.documents) ∷ []) }
        ensures err { OnErr result (self.new ≡ self.old) }
    {
        self.sequences.push(sequence)?;
        Ok(())
    }

    /// The sequences, in order.
    pub fn as_slice(&self) -> &[Sequence]
        ensures { pairs_of result.now ≡ self.now }
    {
        self.sequences.as_slice()
    }

    /// Returns the sequences, in order. The list is taken apart, and nothing is copied.
    pub fn into_sequences(self) -> Vec<Sequence>
        ensures { pairs_of result.items ≡ self }
    {
        self.sequences
    }
}
