//! What iterators of dictionaries go over: keys as positions, and the strings that keys name.
ghost use Rattle.std.specs.Prelude.{◌≡◌, refl};

use crate::{DictValue, DictionaryKey};
use arrow_flat::{ArrayAccessor, ArrayIter, ArrayValuesIter, ByteString, PrimitiveArray};

/// The keys of a dictionary as positions, `None` for a null.
pub type KeysIter<'a, K> = ArrayIter<Positions<'a, K>, usize, usize>;

/// The keys of a dictionary as positions, those under nulls too.
pub type KeysValuesIter<'a, K> = ArrayValuesIter<Positions<'a, K>, usize, usize>;

/// The strings that the keys of a dictionary name, `None` for a null.
pub type DictionaryIterTyped<'a, K, V> = ArrayIter<Texts<'a, K, V>, &'a str, ByteString>;

/// The strings that the keys of a dictionary name, none of which is null.
pub type DictionaryValuesIterTyped<'a, K, V> = ArrayValuesIter<
    Texts<'a, K, V>,
    &'a str,
    ByteString,
>;

/// Keys as positions; 0 for a key that is no position.
#[derive_where(Clone, Copy)]
pub struct Positions<'a, K: DictionaryKey>(&'a PrimitiveArray<K>);

impl<'a, K: DictionaryKey> Positions<'a, K> {
    /// The positions of these keys.
    pub(crate) fn new(keys: &'a PrimitiveArray<K>) -> Positions<'a, K>
        ensures { result.0.now ≡ keys.now }
    {
        Positions(keys)
    }
}

impl<'a, K: DictionaryKey> ArrayAccessor<usize, usize> for Positions<'a, K> {
    ghost use Rattle.arrow_choice.specs.Dictionaries.{positions_of};

    ghost seen = { λ n. n };

    ghost seen_slot = { λ o. o };

    ghost values = { λ p. positions_of K.parts p.0.now };

    ghost mask = { λ p. p.0.now.mask };

    fn len(self) -> usize {
        self.0.invariant();
        self.0.len()
    }

    fn is_valid(self, i: usize) -> bool {
        self.0.invariant();
        self.0.is_valid(i)
    }

    fn value(self, i: usize) -> usize {
        self.0.value(i).to_usize().unwrap_or(0)
    }

    ghost of_value = { λ n. refl };

    ghost of_null = { refl };
}

/// The strings that keys name; the empty one for a key that names none.
#[derive_where(Clone, Copy)]
pub struct Texts<'a, K: DictionaryKey, V: DictValue> {
    keys: &'a PrimitiveArray<K>,
    texts: &'a V,
}

impl<'a, K: DictionaryKey, V: DictValue> Texts<'a, K, V> {
    /// The strings that these keys name.
    pub(crate) fn new(keys: &'a PrimitiveArray<K>, texts: &'a V) -> Texts<'a, K, V>
        ensures keys { result.keys.now ≡ keys.now }
        ensures texts { result.texts.now ≡ texts.now }
    {
        Texts { keys, texts }
    }
}

impl<'a, K: DictionaryKey, V: DictValue> ArrayAccessor<&'a str, ByteString> for Texts<'a, K, V> {
    ghost use Rattle.arrow_choice.specs.Dictionaries.{texts_at};
    ghost use Rattle.arrow_views.specs.ViewArrays.{lent_octets, seen_octets};

    ghost seen = { lent_octets };

    ghost seen_slot = { seen_octets };

    ghost values = { λ t. texts_at K.parts (V.texts t.texts.now) t.keys.now };

    ghost mask = { λ t. t.keys.now.mask };

    fn len(self) -> usize {
        self.keys.invariant();
        self.keys.len()
    }

    fn is_valid(self, i: usize) -> bool {
        self.keys.invariant();
        self.keys.is_valid(i)
    }

    fn value(self, i: usize) -> &'a str {
        let position = Positions::new(self.keys).value(i);
        if position < self.texts.text_count() {
            self.texts.text_at(position)
        } else {
            ""
        }
    }

    ghost of_value = { λ x. refl };

    ghost of_null = { refl };
}
