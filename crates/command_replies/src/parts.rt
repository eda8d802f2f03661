//! Building documents, one field at a time.

ghost use Rattle.std.specs.Prelude.{◌≡◌, ◌<◌, ◌^◌, IsTrue, OnOk, pos};
ghost use Rattle.bson_model.specs.Tree.{boolean_value, int32_value, string_value, no_fields, field, joined};
ghost use Rattle.bson_values.specs.Names.{has_no_zero};
ghost use Rattle.bson_values.specs.View.{datum_of};
ghost use Rattle.command_model.specs.AnswerParts as shown;
ghost use Rattle.command_model.specs.AnswerParts.{ok, operation_time_at};

use bson_values::{Aligned, Document, Memory, Name, Text, Value};
use cluster_base::Time;
use std::alloc::Global;

/// Returns a count, in 64 bits where it does not fit into 32.
pub(crate) fn count_shown(count: u64) -> Value
    requires { count < 2 ^ 63 }
    ensures { datum_of result ≡ shown.count count }
{
    if count < 1 << 31 {
        Value::Int32(Aligned::of(count as i32))
    } else {
        Value::Int64(count as i64)
    }
}

/// Appends a field. Returns `Memory` if memory runs out.
pub(crate) fn add(
    document: &mut Document,
    alloc: Global,
    name: &str,
    value: Value,
) -> Result<(), Memory>
    requires { IsTrue (has_no_zero name.now) }
    ensures { OnOk result (document.new ≡ joined document.old (field name.now (datum_of value) no_fields)) }
{
    let name = Name::of(alloc, name)?;
    document.push(name, value)
}

/// Appends a text. Returns `Memory` if memory runs out.
pub(crate) fn add_text(
    document: &mut Document,
    alloc: Global,
    name: &str,
    text: &str,
) -> Result<(), Memory>
    requires { IsTrue (has_no_zero name.now) }
    ensures { OnOk result (document.new ≡ joined document.old (field name.now (string_value text.now) no_fields)) }
{
    let text = Text::of(alloc, text)?;
    add(document, alloc, name, Value::Text(text))
}

/// Appends a number. Returns `Memory` if memory runs out.
pub(crate) fn add_number(
    document: &mut Document,
    alloc: Global,
    name: &str,
    number: i32,
) -> Result<(), Memory>
    requires { IsTrue (has_no_zero name.now) }
    ensures { OnOk result (document.new ≡ joined document.old (field name.now (int32_value number) no_fields)) }
{
    add(document, alloc, name, Value::Int32(Aligned::of(number)))
}

/// Appends a boolean. Returns `Memory` if memory runs out.
pub(crate) fn add_boolean(
    document: &mut Document,
    alloc: Global,
    name: &str,
    boolean: bool,
) -> Result<(), Memory>
    requires { IsTrue (has_no_zero name.now) }
    ensures { OnOk result (document.new ≡ joined document.old (field name.now (boolean_value boolean) no_fields)) }
{
    add(document, alloc, name, Value::Bool(Aligned::of(boolean)))
}

/// Appends the last fields of an operation's answer: `ok`, and the time. Returns `Memory` if memory runs out.
pub(crate) fn add_end(answer: &mut Document, alloc: Global, time: Time) -> Result<(), Memory>
    ensures { OnOk result (answer.new ≡ joined answer.old (ok (operation_time_at time.0))) }
{
    add_number(answer, alloc, "ok", 1)?;
    add(answer, alloc, "operationTime", Value::Timestamp(time.0))?;
    Ok(())
}
