//! The form of a command, and the one order of its checks.

ghost use Rattle.std.specs.Prelude.{◌≡◌, ℕ, List, [], ◌∷◌, None, Some};
ghost use Rattle.bson_model.specs.Tree.{Datum, Fields, field};
ghost use Rattle.bson_values.specs.View.{datum_of};
ghost use Rattle.opmsg_frames.specs.Lists.{pairs_of};
ghost use Rattle.opmsg_frames.specs.RequestMeanings.{form_view};
ghost use Rattle.command_model.specs.Checks.{is_one_of};
ghost use Rattle.command_model.specs.Command as commands;
ghost use Rattle.command_model.specs.Forms as model;
ghost use Rattle.command_model.specs.Fields as fields;
ghost use Rattle.command_words.specs.Drafts.{Drafts};
ghost use Rattle.command_fields.specs.Verdicts.{ReadsBy, verdict_view};

use crate::draft::Draft;
use bson_values::{Document, Value};
use cluster_base::Code;
use command_fields::{CheckFault, check_database, database_of, passed};
use opmsg_frames::{Form, Sequence};
use std::alloc::Global;

/// The form of a command: the check of each part of a request, and the command that it results in.
pub(crate) trait CommandForm {
    /// What the command's own field is read as.
    type Own: Drop;

    /// What the fields after it are read as.
    type Given: Drop;

    // The form.
    ghost form: { Self → model.CommandForm commands.Command };

    // The names that the own field may have.
    ghost is_name: { Self → List ℕ → Type 0 };

    // What was read of a database and the value of the own field.
    ghost is_read: { Self → Self.Own → List ℕ → Datum → Type 0 };

    // What was read of a database and the fields of a document.
    ghost are_read: { Self → Self.Given → List ℕ → Fields → Type 0 };

    /// Reads the command's own field.
    fn read_own(&self, alloc: Global, database: &str, own: &Value) -> Result<Self::Own, CheckFault>
        ensures { ReadsBy (λ x. is_read self.now x database.now (datum_of own.now)) result ((form self.now).check_own database.now (datum_of own.now)) };

    /// Reads the fields after it.
    fn read_fields(
        &self,
        alloc: Global,
        database: &str,
        document: &Document,
    ) -> Result<Self::Given, CheckFault>
        ensures { (own : List ℕ) (value : Datum) (others : Fields) → is_name self.now own → document.now ≡ field own value others →
            ReadsBy (λ given. are_read self.now given database.now document.now) result
            (fields.check_fields (form self.now).unlisted ((form self.now).rules database.now) (own ∷ []) others) };

    /// Checks a document sequence; `given`: a field or a sequence with its identifier precedes it.
    fn check_sequence(&self, given: bool, sequence: &Sequence) -> Option<Code>
        ensures { verdict_view result ≡ model.check_sequence (form self.now).sequence given (sequence.now.identifier, sequence.now.documents) };

    /// Checks that there is what is required.
    fn check_needed(&self, document: &Document, sequences: &[Sequence]) -> Option<Code>
        ensures { verdict_view result ≡ (form self.now).check_needed document.now (pairs_of sequences.now) };

    /// Returns the command without the statements of a write, which are checked last; or the error of what is checked last.
    fn finish(
        &self,
        alloc: Global,
        own: Self::Own,
        given: Self::Given,
        value: &Value,
        document: &Document,
        sequences: &[Sequence],
    ) -> Result<Draft, CheckFault>
        ensures { (database : List ℕ) → is_read self.now own database (datum_of value.now) → are_read self.now given database document.now →
            (form self.now).check_needed document.now (pairs_of sequences.now) ≡ None →
            Drafts document.now (pairs_of sequences.now) result (commands.by_verdict ((form self.now).check_last document.now (pairs_of sequences.now))
            ((form self.now).command database (datum_of value.now) document.now (pairs_of sequences.now))) };
}

// Checks the first sequence.
fn check_first<F: CommandForm>(form: &F, document: &Document, first: &Sequence) -> Option<Code>
    ensures { verdict_view result ≡ model.check_sequence (F.form form.now).sequence
        (is_one_of first.now.identifier (fields.names_of document.now)) (first.now.identifier, first.now.documents) }
{
    let given = document.get(first.identifier.as_str()).is_some();
    form.check_sequence(given, first)
}

// Checks the sequences. A second one has an identifier that occurred before, or one that the command does not have.
fn check_sequences<F: CommandForm>(
    form: &F,
    document: &Document,
    sequences: &[Sequence],
) -> Option<Code>
    ensures { verdict_view result ≡ model.check_sequences (F.form form.now).sequence (fields.names_of document.now) (pairs_of sequences.now) }
{
    match sequences {
        [] => None,
        [first] => check_first(form, document, first),
        [first, _, ..] => match check_first(form, document, first) {
            Some(code) => Some(code),
            None => Some(Code::FailedToParse),
        },
    }
}

/// Returns the command of that form, without the statements of a write; or the first error, in the one order. `own` is the value of the document's first
/// field.
pub(crate) fn read_by<F: CommandForm>(
    form: &F,
    alloc: Global,
    sent: Form,
    own: &Value,
    document: &Document,
    sequences: &[Sequence],
) -> Result<Draft, CheckFault>
    ensures { (name : List ℕ) (others : Fields) → F.is_name form.now name → document.now ≡ field name (datum_of own.now) others →
        Drafts document.now (pairs_of sequences.now) result
        (commands.by_form (Some (F.form form.now)) (form_view sent) name (datum_of own.now) others (pairs_of sequences.now)) }
{
    passed(check_database(sent, document))?;
    let database = database_of(sent, document);
    let read = form.read_own(alloc, database, own)?;
    let given = form.read_fields(alloc, database, document)?;
    passed(check_sequences(form, document, sequences))?;
    passed(form.check_needed(document, sequences))?;
    form.finish(alloc, read, given, own, document, sequences)
}
