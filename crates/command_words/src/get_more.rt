//! `getMore` (MongoDB manual, "getMore").

ghost use Rattle.std.specs.Prelude.{◌≡◌, IfOk, Ok, Some, codes};
ghost use Rattle.bson_model.specs.Tree.{get};
ghost use Rattle.bson_values.specs.View.{datum_of};
ghost use Rattle.command_model.specs.Checks as checks;
ghost use Rattle.command_model.specs.Command.{more_command};
ghost use Rattle.command_model.specs.Cursors as cursors;
ghost use Rattle.command_model.specs.GetMore.{more_form};
ghost use Rattle.base_model.specs.Errors.{failed_to_parse, invalid_namespace};
ghost use Rattle.command_model.specs.Forms.{check_collection, made_into};
ghost use Rattle.command_words.specs.Held.{IsCollection, IsGiven, collection_told};
ghost use Rattle.command_words.specs.HeldRules.{more_rules_held};
ghost use Rattle.command_fields.specs.Verdicts.{ReadsBy};

use crate::command::Command;
use crate::draft::Draft;
use crate::forms::CommandForm;
use bson_values::{Document, Memory, Value};
use cluster_base::{Code, Namespace};
use command_fields::{
    CheckFault, Rules, check_behind_own, check_required, collection_of, common_ruling, held,
    namespace_of, natural_needed, number_given, whole_number,
};
use opmsg_frames::Sequence;
use std::alloc::Global;

/// To read the next batch of a cursor, of at most this many documents, where a size is given.
#[derive(Drop)]
pub struct GetMore {
    pub namespace: Namespace,
    pub cursor: i64,
    pub size: Option<u64>,
}

/// The namespace of the collection that a field names, if there is the field; or the error that the field returns.
type Collection = Result<Option<Namespace>, Code>;

// Checks that clients may use a database, so that a collection in it has a namespace.
fn read_database(alloc: Global, database: &str) -> Result<(), CheckFault>
    ensures { ReadsBy (λ read. Unit {0}) result (checks.unless_passes (cursors.is_open_database database.now) invalid_namespace) }
{
    let _namespace = namespace_of(alloc, database, "c")?;
    Ok(())
}

fn named_collection(
    alloc: Global,
    database: &str,
    value: &Value,
) -> Result<Option<Namespace>, CheckFault>
    ensures { ReadsBy (λ read. IsGiven read database.now (datum_of value.now)) result (check_collection database.now (datum_of value.now)) }
{
    let namespace = collection_of(alloc, database, value)?;
    Ok(Some(namespace))
}

// Returns the namespace of the collection that the document names, or `Memory` if memory runs out.
fn collection_in(alloc: Global, database: &str, document: &Document) -> Result<Collection, Memory>
    ensures { IfOk result (λ collection. IsCollection collection database.now (get (codes "collection") document.now)) }
{
    match document.get("collection") {
        Some(value) => held(named_collection(alloc, database, value)),
        None => Ok(Ok(None)),
    }
}

/// The rules of a `getMore` whose collection was read.
#[derive(Clone, Copy)]
struct MoreRules<'a> {
    collection: &'a Collection,
}

impl Rules for MoreRules<'_> {
    ghost rules = { λ r. more_rules_held (collection_told r.collection.now) };

    ghost unlisted_verdict = { λ _. Some failed_to_parse };

    fn ruling(&self, name: &str, value: &Value) -> Option<Option<Code>> {
        if "collection" == name {
            match self.collection {
                Ok(_) => Some(None),
                Err(code) => Some(Some(*code)),
            }
        } else if "batchSize" == name {
            Some(natural_needed(value))
        } else {
            common_ruling(name, value)
        }
    }

    fn unlisted(&self) -> Option<Code> {
        Some(Code::FailedToParse)
    }
}

/// The form of `getMore`.
#[derive(Clone, Copy)]
pub(crate) struct MoreForm;

impl CommandForm for MoreForm {
    type Own = i64;

    type Given = Option<Namespace>;

    ghost form = { λ _. made_into more_command more_form };

    ghost is_name = { λ _ name. name ≡ codes "getMore" };

    ghost is_read = { λ _ cursor database value. cursor ≡ cursors.number_in value };

    ghost are_read = { λ _ collection database document. IsCollection (Ok collection) database (get (codes "collection") document) };

    fn read_own(&self, alloc: Global, database: &str, own: &Value) -> Result<i64, CheckFault> {
        let Some(cursor) = whole_number(own) else {
            return Err(CheckFault::Refused(Code::TypeMismatch));
        };
        read_database(alloc, database)?;
        Ok(cursor)
    }

    fn read_fields(
        &self,
        alloc: Global,
        database: &str,
        document: &Document,
    ) -> Result<Option<Namespace>, CheckFault> {
        let collection = collection_in(alloc, database, document)?;
        let rules = MoreRules {
            collection: &collection,
        };
        if let Some(code) = check_behind_own(&rules, document) {
            return Err(CheckFault::Refused(code));
        }
        match collection {
            Ok(namespace) => Ok(namespace),
            Err(code) => Err(CheckFault::Refused(code)),
        }
    }

    fn check_sequence(&self, _given: bool, _sequence: &Sequence) -> Option<Code> {
        Some(Code::FailedToParse)
    }

    fn check_needed(&self, document: &Document, _sequences: &[Sequence]) -> Option<Code> {
        check_required("collection", document)
    }

    fn finish(
        &self,
        _alloc: Global,
        own: i64,
        given: Option<Namespace>,
        _value: &Value,
        document: &Document,
        _sequences: &[Sequence],
    ) -> Result<Draft, CheckFault> {
        match given {
            Some(namespace) => Ok(Draft::Whole(Command::GetMore(GetMore {
                namespace,
                cursor: own,
                size: number_given(document, "batchSize"),
            }))),
            None => Err(CheckFault::Refused(Code::FailedToParse)),
        }
    }
}
