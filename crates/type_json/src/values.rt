//! What JSON values are: numbers.
ghost use Rattle.std.specs.Prelude.{◌≡◌};
ghost use Rattle.serde_json.specs.View.{view};
ghost use Rattle.type_json.specs.Values.{whole_in, int32_in};

use serde_json::Value;

/// The number from 0 to 18446744073709551615 that a value is.
#[tactic(auto, unfolding(crate::specs::Values::whole_in))]
pub fn whole_in(value: &Value) -> Option<usize>
    ensures { result ≡ whole_in (view value.now) }
{
    let number = value.as_u64()?;
    Some(number as usize)
}

/// The number of 32 bits that a value is.
#[tactic(auto, unfolding(crate::specs::Values::int32_in))]
pub fn int32_in(value: &Value) -> Option<i32>
    ensures { result ≡ int32_in (view value.now) }
{
    i32::try_from(value.as_i64()?).ok()
}
