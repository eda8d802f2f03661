//! The database that a request names, and the namespaces of collections in it.

ghost use Rattle.std.specs.Prelude.{◌≡◌, codes};
ghost use Rattle.bson_model.specs.Tree.{get};
ghost use Rattle.bson_values.specs.View.{datum_of};
ghost use Rattle.command_model.specs.Checks.{unless_passes};
ghost use Rattle.base_model.specs.Errors.{invalid_namespace};
ghost use Rattle.command_model.specs.Forms as model;
ghost use Rattle.base_model.specs.Names.{full_name, is_open_namespace};
ghost use Rattle.command_model.specs.AdminCommands.{check_full_name, is_open_name};
ghost use Rattle.opmsg_frames.specs.RequestMeanings.{form_view};
ghost use Rattle.command_fields.specs.FieldNames.{NamesCollection, NamesInFull};
ghost use Rattle.command_fields.specs.Verdicts.{ReadsBy, verdict_view};

use crate::checks::{string_needed, text_in};
use crate::fault::CheckFault;
use bson_values::{Document, Value};
use cluster_base::{Code, NameFault, Namespace, is_reserved_database};
use opmsg_frames::Form;
use std::alloc::Global;

/// Requires the database as a string, except in OP_QUERY: returns `FailedToParse` where it is missing, and `TypeMismatch` for another value.
pub fn check_database(sent: Form, document: &Document) -> Option<Code>
    ensures { verdict_view result ≡ model.check_database (form_view sent) (get (codes "$db") document.now) }
{
    match document.get("$db") {
        Some(value) => string_needed(value),
        None => match sent {
            Form::Msg => Some(Code::FailedToParse),
            Form::Query => None,
        },
    }
}

/// Returns the database that a request names; in OP_QUERY it is `admin`.
pub fn database_of(sent: Form, document: &Document) -> &str
    ensures { result.now ≡ model.database_of (form_view sent) document.now }
{
    match sent {
        Form::Query => "admin",
        Form::Msg => match document.get("$db") {
            Some(value) => text_in(value),
            None => "",
        },
    }
}

/// Returns the namespace of these texts, if clients may use it. Returns `InvalidNamespace` if they may not, and `Memory` if memory runs out.
pub fn namespace_of(
    alloc: Global,
    database: &str,
    collection: &str,
) -> Result<Namespace, CheckFault>
    ensures { ReadsBy (λ n. n ≡ full_name database.now collection.now) result
        (unless_passes (is_open_namespace database.now collection.now) invalid_namespace) }
{
    if is_reserved_database(database) {
        return Err(CheckFault::Refused(Code::InvalidNamespace));
    }
    match Namespace::of_parts(alloc, database, collection) {
        Ok(namespace) => Ok(namespace),
        Err(NameFault::Form) => Err(CheckFault::Refused(Code::InvalidNamespace)),
        Err(NameFault::Memory) => Err(CheckFault::Memory),
    }
}

/// Returns the namespace of the collection that a command's own field names. Returns `TypeMismatch` for a value that is not a string, `InvalidNamespace` for
/// a namespace that clients may not use, and `Memory` if memory runs out.
pub fn collection_of(alloc: Global, database: &str, own: &Value) -> Result<Namespace, CheckFault>
    ensures { ReadsBy (λ n. NamesCollection n database.now (datum_of own.now)) result (model.check_collection database.now (datum_of own.now)) }
{
    match own {
        Value::Text(collection) => namespace_of(alloc, database, collection.as_str()),
        _ => Err(CheckFault::Refused(Code::TypeMismatch)),
    }
}

// Returns the namespace of that full name, if clients may use it. Returns `InvalidNamespace` if they may not, and `Memory` if memory runs out.
fn open_name(alloc: Global, name: &str) -> Result<Namespace, CheckFault>
    ensures { ReadsBy (λ n. n ≡ name.now) result (unless_passes (is_open_name name.now) invalid_namespace) }
{
    match name.split_once('.') {
        Some((database, collection)) => namespace_of(alloc, database, collection),
        None => Err(CheckFault::Refused(Code::InvalidNamespace)),
    }
}

/// Returns the namespace that a command's own field names in full, where the command is sent to the database `admin`. Returns `TypeMismatch` for a value that
/// is not a string, `InvalidNamespace` on another database and for a text that is no full name of a namespace that clients may use, and `Memory` if memory
/// runs out.
pub fn full_name_of(alloc: Global, database: &str, own: &Value) -> Result<Namespace, CheckFault>
    ensures { ReadsBy (λ n. NamesInFull n (datum_of own.now)) result (check_full_name database.now (datum_of own.now)) }
{
    match own {
        Value::Text(name) => {
            if database == "admin" {
                open_name(alloc, name.as_str())
            } else {
                Err(CheckFault::Refused(Code::InvalidNamespace))
            }
        }
        _ => Err(CheckFault::Refused(Code::TypeMismatch)),
    }
}
