//! Laws of keys and of dictionaries.
ghost use Rattle.std.specs.Prelude.{◌≡◌, ◌<◌, ◌^◌, IfSome, MatchOption, Some, ℤ, Option};
ghost use Rattle.arrow_buffers.specs.Bits.{Bits};
ghost use Rattle.arrow_choice.specs.Dictionaries.{IsAccepted, KeysNameValues, RefusedFor};
ghost use Rattle.arrow_layout.specs.Layouts.{Layout};
ghost use Rattle.arrow_layout.specs.WellFormed.{WellFormed};
ghost use Rattle.arrow_meaning.specs.Nodes.{IsStoredAs, key_number};
ghost use Rattle.arrow_types.specs.Capacity.{key_capacity};
ghost use Rattle.arrow_types.specs.Carried.{IsBelow};
ghost use Rattle.arrow_types.specs.declared.datatype.IntegerType.{IntegerType};
ghost use Rattle.arrow_types.specs.declared.datatype.PhysicalType.TheVariants as physical;
ghost use Rattle.arrow_types.specs.declared.error.Reason.TheVariants.{KeyRange};

use crate::DictionaryKey;

/// The position that a key of it gives back: the same, where it is below the key capacity.
pub fn position_of_its_key<K: DictionaryKey>(n: usize) -> Option<usize>
    requires { n < key_capacity K.KEY_TYPE }
    ensures { result ≡ Some n }
{
    match K::from_usize(n) {
        Some(key) => key.to_usize(),
        None => None,
    }
}

/// The key of the position that a key gives: one of the same numbers, where the key is from 0 to
/// the greatest `usize`.
pub fn key_of_its_position<K: DictionaryKey>(key: K) -> Option<K>
    requires { IsBelow (2 ^ 64) (key_number (K.parts key)) }
    ensures { MatchOption result ⊥ (λ k. K.parts k ≡ K.parts key) }
{
    match key.to_usize() {
        Some(n) => K::from_usize(n),
        None => None,
    }
}

/// The parts of each well-formed dictionary are accepted, but for one with a valid key and a key
/// under a null that names no value, which is refused as KeyRange.
pub fn well_formed_dictionaries_are_accepted()
    ensures accepted { (k : IntegerType) (l : Layout) → WellFormed l
        → IsStoredAs (physical.Dictionary k) l → KeysNameValues l → IsAccepted k l }
    ensures refused { (k : IntegerType) (l : Layout) → WellFormed l
        → IsStoredAs (physical.Dictionary k) l → (KeysNameValues l → ⊥)
        → RefusedFor KeyRange k l }
{}
