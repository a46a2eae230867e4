//! Members, lists, bits, bytes and slices of JSON values.
ghost use Rattle.std.specs.Prelude.{◌≡◌, ◌<◌, map, option_map, option_and_then, Some, None, IfOk};
ghost use Rattle.serde_json.specs.View.{view};
ghost use Rattle.arrow_flat.specs.Natives.{octets};
ghost use Rattle.type_json.specs.Reads.{Reads};
ghost use Rattle.type_json.specs.declared.error.JsonError.TheVariants.{BadValue};
ghost use Rattle.type_json.specs.Values.{two_members, three_members, whole_in};
ghost use Rattle.std.specs.Option.{option_zip};
ghost use Rattle.column_read.specs.Parts.{sized_parts_seen};
ghost use Rattle.column_grammar.specs.Values.{bit_of_digit, bits_of_text, bits_in_json, mask_in, bytes_in, items_in, pair_of, triple_of, one_member};
ghost use Rattle.column_grammar.specs.Reads.{slice_in};

use crate::parts::SizedParts;
use arrow_buffers::{Bitmap, MutableBitmap};
use hex::FromHexError;
use serde_json::Value;
use std::alloc::Global;
use type_json::{JsonError, whole_in};

/// The value at a key, of an object that has no other key.
pub fn one_member<'v>(value: &'v Value, key: &str) -> Option<&'v Value>
    ensures { option_map (λ d. view d.now) result ≡ one_member key.now (view value.now) }
{
    let members = value.as_object()?;
    if members.len() != 1 {
        return None;
    }
    value.get(key)
}

/// The values at two keys, of an object that has no other key.
pub fn two_members<'v>(
    value: &'v Value,
    first: &str,
    second: &str,
) -> Option<(&'v Value, &'v Value)>
    ensures { option_map (λ p. (view p.0.now, view p.1.now)) result
        ≡ two_members first.now second.now (view value.now) }
{
    let members = value.as_object()?;
    if members.len() != 2 {
        return None;
    }
    let left = value.get(first)?;
    let right = value.get(second)?;
    Some((left, right))
}

/// The values at three keys, of an object that has no other key.
pub fn three_members<'v>(
    value: &'v Value,
    first: &str,
    second: &str,
    third: &str,
) -> Option<(&'v Value, &'v Value, &'v Value)>
    ensures { option_map (λ p. (view p.0.now, (view p.1.now, view p.2.now))) result
        ≡ three_members first.now second.now third.now (view value.now) }
{
    let members = value.as_object()?;
    if members.len() != 3 {
        return None;
    }
    let left = value.get(first)?;
    let middle = value.get(second)?;
    let right = value.get(third)?;
    Some((left, middle, right))
}

/// The values of a list.
pub fn items(value: &Value) -> Option<&[Value]>
    ensures { option_map (λ l. map view l.now) result ≡ items_in (view value.now) }
{
    let list = value.as_array()?;
    Some(list.as_slice())
}

/// The two values of a list of two.
pub fn pair_in(value: &Value) -> Option<(&Value, &Value)>
    ensures { option_map (λ p. (view p.0.now, view p.1.now)) result
        ≡ option_and_then pair_of (items_in (view value.now)) }
{
    match items(value)? {
        [first, second] => Some((first, second)),
        _ => None,
    }
}

/// The three values of a list of three.
pub fn triple_in(value: &Value) -> Option<(&Value, &Value, &Value)>
    ensures { option_map (λ p. (view p.0.now, (view p.1.now, view p.2.now))) result
        ≡ option_and_then triple_of (items_in (view value.now)) }
{
    match items(value)? {
        [first, second, third] => Some((first, second, third)),
        _ => None,
    }
}

/// The bit of a character `0` or `1`.
fn bit_of(byte: u8) -> Option<bool>
    ensures { result ≡ bit_of_digit byte }
{
    match byte {
        b'1' => Some(true),
        b'0' => Some(false),
        _ => None,
    }
}

/// The bits of a text of `0` and `1`. BadValue exactly where another character stands in it.
fn bits_of(alloc: Global, text: &[u8]) -> Result<Bitmap, JsonError>
    ensures { Reads BadValue (λ b. b) (bits_of_text text.now) result }
{
    let mut bits = MutableBitmap::new(alloc);
    bits.reserve(text.len())?;
    for byte in text {
        let Some(bit) = bit_of(*byte) else {
            return Err(JsonError::BadValue);
        };
        bits.push(bit)?;
    }
    let bits = bits.freeze()?;
    Ok(bits)
}

/// The bits that a value is: a text of `0` and `1`. BadValue exactly where it is none.
#[tactic(auto, unfolding(column_grammar::specs::Values::bits_in_json))]
pub fn bits_in(alloc: Global, value: &Value) -> Result<Bitmap, JsonError>
    ensures { Reads BadValue (λ b. b) (bits_in_json (view value.now)) result }
{
    let text = value.as_str().ok_or(JsonError::BadValue)?;
    bits_of(alloc, text.as_bytes())
}

/// The mask that a value is: null, or a text of `0` and `1`. BadValue exactly where it is none.
#[tactic(auto, unfolding(column_grammar::specs::Values::mask_in))]
pub fn mask_in(alloc: Global, value: &Value) -> Result<Option<Bitmap>, JsonError>
    ensures { Reads BadValue (λ m. m) (mask_in (view value.now)) result }
{
    if value.is_null() {
        return Ok(None);
    }
    let bits = bits_in(alloc, value)?;
    Ok(Some(bits))
}

/// The length and the mask that two values are. BadValue exactly where one of them is none.
pub(crate) fn sized_parts(
    alloc: Global,
    length: &Value,
    mask: &Value,
) -> Result<SizedParts, JsonError>
    ensures { Reads BadValue sized_parts_seen
        (option_zip (whole_in (view length.now)) (mask_in (view mask.now))) result }
{
    let length = whole_in(length).ok_or(JsonError::BadValue)?;
    let validity = mask_in(alloc, mask)?;
    Ok(SizedParts { length, validity })
}

/// The bytes that a value is: a text of two hexadecimal digits a byte, in both cases. BadValue
/// exactly where it is none.
#[tactic(auto, using(crate::proofs::Hex::fits), unfolding(column_grammar::specs::Values::bytes_in))]
pub fn bytes_in(alloc: Global, value: &Value) -> Result<Vec<u8>, JsonError>
    ensures read { Reads BadValue (λ bs. bs.items) (bytes_in (view value.now)) result }
    ensures octets { IfOk result (λ bs. octets bs.items ≡ bs.items) }
{
    let text = value.as_str().ok_or(JsonError::BadValue)?;
    match hex::decode(alloc, text.as_bytes()) {
        Ok(bytes) => Ok(bytes),
        Err(FromHexError::OutOfMemory) => Err(JsonError::OutOfMemory),
        Err(_) => Err(JsonError::BadValue),
    }
}

/// The offset and the length that a value is: a list of the two.
#[tactic(auto, unfolding(column_grammar::specs::Reads::slice_in))]
pub fn slice_in(value: &Value) -> Option<(usize, usize)>
    ensures { result ≡ slice_in (view value.now) }
{
    let (offset, length) = pair_in(value)?;
    let offset = whole_in(offset)?;
    let length = whole_in(length)?;
    Some((offset, length))
}
