//! Sums, and the lesser and the greater of two values (MongoDB manual, "$inc", "$min", "$max").

ghost use Rattle.std.specs.Prelude.{◌≡◌, ◌+ℤ◌, IfOk, option_map};
ghost use Rattle.bson_model.specs.Tree.{int32_value, int64_value};
ghost use Rattle.bson_values.specs.View.{datum_of};
ghost use Rattle.query_model.specs.Edits.{greater_of, lesser_of, long_sum, short_sum, sum_with};
ghost use Rattle.update_ops.specs.ApplyFaults.{Gives};
ghost use Rattle.update_ops.specs.View.{number_datum};

use crate::change::Number;
use crate::fault::ApplyFault;
use bson_values::{Aligned, Memory, Value};
use value_compare::compare;

// The sum of two numbers of which at least one is an int64.
#[tactic(auto, using(crate::proofs::Sums::long_inside, crate::proofs::Sums::long_past))]
fn long_sum(a: i64, b: i64) -> Result<Value, ApplyFault>
    ensures gives { Gives (λ v. datum_of v) result (long_sum (a +ℤ b)) }
{
    match a.checked_add(b) {
        Some(sum) => Ok(Value::Int64(sum)),
        None => Err(ApplyFault::Overflow),
    }
}

// The sum of two int32, which is an int32 where it fits.
#[tactic(auto, using(crate::proofs::Sums::short_inside, crate::proofs::Sums::short_past))]
fn short_sum(a: i32, b: i32) -> Result<Value, ApplyFault>
    ensures gives { Gives (λ v. datum_of v) result (short_sum (a +ℤ b)) }
{
    match a.checked_add(b) {
        Some(sum) => Ok(Value::Int32(Aligned::of(sum))),
        None => long_sum(i64::from(a), i64::from(b)),
    }
}

// An int32 added to the present value.
fn add_int32(n: i32, found: Option<&Value>) -> Result<Value, ApplyFault>
    ensures gives { Gives (λ v. datum_of v) result (sum_with (int32_value n) (option_map (λ v. datum_of v.now) found.entry)) }
{
    match found {
        None => Ok(Value::Int32(Aligned::of(n))),
        Some(Value::Int32(z)) => short_sum(z.content, n),
        Some(Value::Int64(z)) => long_sum(*z, i64::from(n)),
        Some(_) => Err(ApplyFault::NotNumber),
    }
}

// An int64 added to the present value.
fn add_int64(n: i64, found: Option<&Value>) -> Result<Value, ApplyFault>
    ensures gives { Gives (λ v. datum_of v) result (sum_with (int64_value n) (option_map (λ v. datum_of v.now) found.entry)) }
{
    match found {
        None => Ok(Value::Int64(n)),
        Some(Value::Int32(z)) => long_sum(i64::from(z.content), n),
        Some(Value::Int64(z)) => long_sum(*z, n),
        Some(_) => Err(ApplyFault::NotNumber),
    }
}

/// Returns the number added to the present value, or by itself where there is none: an int32 where both are and the sum fits, else an int64. Returns
/// `NotNumber` where the value is not a number, and `Overflow` where the sum is outside int64.
pub fn sum_with(number: Number, found: Option<&Value>) -> Result<Value, ApplyFault>
    ensures gives { Gives (λ v. datum_of v) result (sum_with (number_datum number) (option_map (λ v. datum_of v.now) found.entry)) }
{
    match number {
        Number::Int32(n) => add_int32(n, found),
        Number::Int64(n) => add_int64(n, found),
    }
}

/// Returns a copy of the value where it is less than the present one or there is none, else a copy of that. Returns `Memory` if memory runs out.
pub fn lesser_of(value: &Value, found: Option<&Value>) -> Result<Value, Memory>
    ensures { IfOk result (λ v. datum_of v ≡ lesser_of (datum_of value.now) (option_map (λ v. datum_of v.now) found.entry)) }
{
    let Some(there) = found else {
        return value.copy();
    };
    if compare(value, there).is_lt() {
        value.copy()
    } else {
        there.copy()
    }
}

/// Returns a copy of the value where it is greater than the present one or there is none, else a copy of that. Returns `Memory` if memory runs out.
pub fn greater_of(value: &Value, found: Option<&Value>) -> Result<Value, Memory>
    ensures { IfOk result (λ v. datum_of v ≡ greater_of (datum_of value.now) (option_map (λ v. datum_of v.now) found.entry)) }
{
    let Some(there) = found else {
        return value.copy();
    };
    if compare(value, there).is_gt() {
        value.copy()
    } else {
        there.copy()
    }
}
