//! Whole numbers as they are written.

ghost use Rattle.std.specs.Prelude.{◌≡◌, pos, IfOk, IfSome};
ghost use Rattle.gql_model.specs.Coercing.{integer, number_at};
ghost use Rattle.gql_model.specs.rules.Fitting.{digits_from};

use gql_tree::{NoMemory, Text, TryCopy, Value};

/// What a number gives at the type of a name. One that isn't of 64 signed bits fits no type but `ID`, and
/// has no room.
pub(crate) fn number_at(digits: &Text, name: &str) -> Result<Value, NoMemory>
    ensures { IfOk result (λ value. value ≡ number_at digits.now name.now) }
{
    if name == "ID" {
        return Ok(Value::Text(digits.copy()?));
    }
    match integer_of(digits.as_str()) {
        Some(number) => Ok(Value::Int(number)),
        None => Err(NoMemory),
    }
}

/// The number that a literal's characters write, if it is one of 64 signed bits.
fn integer_of(digits: &str) -> Option<i64>
    ensures { IfSome result (λ number. number ≡ integer digits.now) }
{
    let bytes = digits.as_bytes();
    match bytes.split_first() {
        Some((45, rest)) => Some(-digits_of(rest)?),
        _ => digits_of(bytes),
    }
}

/// The number that decimal digits write.
fn digits_of(digits: &[u8]) -> Option<i64>
    ensures { IfSome result (λ number. number ≡ pos (digits_from 0 digits.now)) }
{
    let mut number: u64 = 0;
    for digit in digits {
        let shifted = number.checked_mul(10)?;
        number = shifted.checked_add(u64::from(digit.saturating_sub(48)))?;
    }
    i64::try_from(number).ok()
}
