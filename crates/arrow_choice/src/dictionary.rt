//! Arrays of dictionaries: keys that name values.
ghost use Rattle.std.specs.Prelude.{◌≡◌, ◌↔◌, ◌<◌, ◌≤◌, false, IfErr, IfOk, IfSome, IsSomeAnd, IsTrue, map, MatchOption, MatchResult, None, slice_get, Some};
ghost use Rattle.arrow_choice.specs.Dictionaries.{dictionary_of, HasValueType, HasKeyType, IsAccepted, IsDictionary, keys_of, order_of, Refused, RefusedFor, TypesRefusedFor, values_of};
ghost use Rattle.arrow_flat.specs.Primitives.{masked_values};
ghost use Rattle.arrow_flat.specs.Slots.{bytes, slot_or_null};
ghost use Rattle.arrow_layout.specs.Denote.{denote, under, validity_of};
ghost use Rattle.arrow_layout.specs.Forms.{dictionaries_of, form_of};
ghost use Rattle.arrow_layout.specs.Layouts.{length_of, type_of};
ghost use Rattle.arrow_layout.specs.Masks.{KeysInRange, null_count_of};
ghost use Rattle.arrow_layout.specs.WellFormed.{WellFormed};
ghost use Rattle.arrow_meaning.specs.Nodes.{IsStoredAs};
ghost use Rattle.arrow_types.specs.Carried.{IsBelow};
ghost use Rattle.arrow_types.specs.Seen.{seen};
ghost use Rattle.arrow_types.specs.Select.{nat_of};
ghost use Rattle.arrow_types.specs.TypeData as T;
ghost use Rattle.arrow_types.specs.Types.{integer_type};
ghost use Rattle.arrow_types.specs.declared.datatype.PhysicalType.TheVariants as physical;
ghost use Rattle.arrow_types.specs.declared.error.PolarsError.TheVariants.{ComputeError, InvalidOperation};
ghost use Rattle.arrow_types.specs.declared.error.Reason.TheVariants.{ValuesKind};

use crate::dictionary_iter::{Positions, Texts};
use crate::{
    DictValue, DictionaryIterTyped, DictionaryKey, DictionaryValuesIterTyped, KeysIter,
    KeysValuesIter,
};
use arrow_flat::stored::is_stored_in;
use arrow_flat::{ArrayAccessor, PrimitiveArray, Splitable, TryClone};
use arrow_meaning::{
    ArrayRef, FlatNode, MaskedArray, Node, TypedArray, copy_of, halves_of, name_values,
};
use arrow_types::{
    ArrowDataType, Boxed, IntegerType, Mem, PhysicalType, PolarsError, PolarsResult, Reason,
    is_same,
};
use std::alloc::Global;
use std::marker::{Model, PhantomData};

/// An array of dictionaries with keys of type `K`, seen as its layout. Slot i is the value that key
/// i names, or null where the keys' mask has an unset bit.
///
/// The Arrow Columnar Format's dictionary-encoded layout.
pub struct DictionaryArray<K: DictionaryKey> {
    array: ArrayRef,
    key: PhantomData<K>,
}

/// By hand: where a value may end there is one call to prove then, not the drop of each field.
impl<K: DictionaryKey> Drop for DictionaryArray<K> {
    fn drop(self) {
        let DictionaryArray { array: _, key: _ } = self;
    }
}

impl<K: DictionaryKey> Model for DictionaryArray<K> {
    ghost use Rattle.arrow_layout.specs.LayoutCode.{layout_code};
    ghost use Rattle.arrow_layout.specs.Layouts.{Layout};
    ghost use Rattle.arrow_meaning.specs.Nodes.{IsStoredAs};
    ghost use Rattle.arrow_types.specs.declared.datatype.PhysicalType.TheVariants as physical;

    ghost Value = { Layout };

    ghost coded = { layout_code };

    ghost view = { λ a. a.array };

    ghost invariant = { λ a. IsStoredAs (physical.Dictionary K.KEY_TYPE) a.array };
}

impl<K: DictionaryKey> TypedArray for DictionaryArray<K> {
    ghost use Rattle.arrow_types.specs.declared.datatype.PhysicalType.TheVariants as physical;

    ghost layout = { λ a. a };

    ghost physical = { physical.Dictionary K.KEY_TYPE };

    fn from_array(array: ArrayRef) -> Result<DictionaryArray<K>, ArrayRef> {
        if is_stored_in(array.dtype(), PhysicalType::Dictionary(K::KEY_TYPE)) {
            Ok(DictionaryArray {
                array,
                key: PhantomData,
            })
        } else {
            Err(array)
        }
    }

    fn boxed(self) -> ArrayRef {
        let DictionaryArray { array, key: _ } = self;
        array
    }

    fn as_ref_array(&self) -> &ArrayRef {
        &self.array
    }
}

impl<K: DictionaryKey> MaskedArray for DictionaryArray<K> {}

impl<K: DictionaryKey> TryClone for DictionaryArray<K> {
    fn try_clone(&self, alloc: Global) -> Mem<DictionaryArray<K>> {
        copy_of(alloc, self)
    }
}

impl<K: DictionaryKey> Splitable for DictionaryArray<K> {
    ghost use Rattle.std.specs.Prelude.{◌-◌, ◌≤◌};
    ghost use Rattle.arrow_layout.specs.Cut.{cut};
    ghost use Rattle.arrow_layout.specs.Layouts.{length_of};

    ghost HasBound = { λ a n. n ≤ length_of a };

    ghost front = { λ a n. cut a 0 n };

    ghost rest = { λ a n. cut a n (length_of a - n) };

    fn check_bound(&self, offset: usize) -> bool {
        offset <= self.len()
    }

    fn split_at(
        &self,
        alloc: Global,
        offset: usize,
    ) -> Mem<(DictionaryArray<K>, DictionaryArray<K>)> {
        halves_of(alloc, self, offset)
    }
}

impl<K: DictionaryKey> DictionaryArray<K> {
    /// The array of these parts, of the type `dtype`.
    ///
    /// Refused as ComputeError: WrongLogicalType where the type, extensions around it looked
    /// through, isn't one of dictionaries; then KeyType where its keys aren't of type `K` or the
    /// keys' own type isn't the plain integer; then ValueType where the declared type of the values
    /// and their own differ without outer extensions; then KeyRange where a key, under nulls too,
    /// names no value, which isn't tested where every key is null.
    pub fn try_new(
        alloc: Global,
        dtype: ArrowDataType,
        keys: PrimitiveArray<K>,
        values: ArrayRef,
    ) -> PolarsResult<DictionaryArray<K>>
        ensures { let parts = dictionary_of K.parts (seen dtype) keys values in
            MatchResult result (λ a. (a ≡ parts) × IsAccepted K.KEY_TYPE parts)
            (λ e. Refused e K.KEY_TYPE parts) }
    {
        check_parts(&dtype, &keys, &values).map_err(PolarsError::ComputeError)?;
        Ok(DictionaryArray::new(alloc, dtype, keys, values)?)
    }

    /// The array of parts that `try_new` accepts.
    pub fn new(
        alloc: Global,
        dtype: ArrowDataType,
        keys: PrimitiveArray<K>,
        values: ArrayRef,
    ) -> Mem<DictionaryArray<K>>
        requires { IsAccepted K.KEY_TYPE (dictionary_of K.parts (seen dtype) keys values) }
        ensures { IfOk result (λ a. a ≡ dictionary_of K.parts (seen dtype) keys values) }
    {
        FlatNode::invariant(&keys);
        values.invariant();
        let node = Node::Dictionary {
            dtype,
            keys: K::key_node(alloc, &keys)?,
            child: values,
        };
        Ok(DictionaryArray {
            array: ArrayRef::from_node(alloc, node)?,
            key: PhantomData,
        })
    }

    /// The array of these parts, of the type of dictionaries of the values' type, unordered.
    ///
    /// Refused as `try_new` of that type is.
    pub fn try_from_keys(
        alloc: Global,
        keys: PrimitiveArray<K>,
        values: ArrayRef,
    ) -> PolarsResult<DictionaryArray<K>>
        ensures { let t = T.dictionary K.KEY_TYPE (type_of values) false in
            let parts = dictionary_of K.parts t keys values in
            MatchResult result (λ a. (a ≡ parts) × IsAccepted K.KEY_TYPE parts)
            (λ e. Refused e K.KEY_TYPE parts) }
    {
        let dtype = unordered_type(alloc, K::KEY_TYPE, values.dtype())?;
        DictionaryArray::try_new(alloc, dtype, keys, values)
    }

    /// The keys and the values.
    fn parts(&self) -> (&PrimitiveArray<K>, &ArrayRef)
        ensures same { self.now
            ≡ dictionary_of K.parts (type_of self.now) result.0.now result.1.now }
        ensures sound { WellFormed self.now }
    {
        self.array.invariant();
        match parts_of(&self.array) {
            Some(parts) => parts,
            None => unreachable!(),
        }
    }

    /// The keys, those under nulls too; their mask is that of the array.
    pub fn keys(&self) -> &PrimitiveArray<K>
        ensures { self.now
            ≡ dictionary_of K.parts (type_of self.now) result.now (values_of self.now) }
    {
        self.parts().0
    }

    /// The values that the keys name.
    pub fn values(&self) -> &ArrayRef
        ensures { result.now ≡ values_of self.now }
    {
        self.parts().1
    }

    /// Whether the type says that the values are ordered.
    pub fn is_ordered(&self) -> bool
        ensures { result ≡ order_of (type_of self.now) }
    {
        match dictionary_type(self.array.dtype()) {
            Some((_, _, is_ordered)) => is_ordered,
            None => unreachable!(),
        }
    }

    /// The type, the keys and the values.
    pub fn take(self, alloc: Global) -> Mem<(ArrowDataType, PrimitiveArray<K>, ArrayRef)>
        ensures { IfOk result (λ p. self ≡ dictionary_of K.parts (seen p.0) p.1 p.2) }
    {
        let (keys, values) = self.parts();
        Ok((
            self.array.dtype().try_clone(alloc)?,
            keys.try_clone(alloc)?,
            values.try_clone(alloc)?,
        ))
    }

    /// Whether each key, under nulls too, names a value.
    pub fn keys_in_range(&self) -> bool
        ensures { IsTrue result ↔ KeysInRange None self.now }
    {
        let (keys, values) = self.parts();
        name_values(keys, &None, values.len())
    }

    /// The position that the key of a slot names, under a null too. The key names a value.
    pub fn key_value(&self, i: usize) -> usize
        requires { IsSomeAnd (slice_get (keys_of self.now) i)
            (IsBelow (length_of (values_of self.now))) }
        ensures { slice_get (map nat_of (keys_of self.now)) i ≡ Some result }
    {
        Positions::new(self.parts().0).value(i)
    }

    /// The position that each key names, `None` at a null key, in order and from both ends.
    pub fn keys_iter(&self) -> KeysIter<'_, K>
        ensures { result ≡ masked_values (validity_of self.now) (map nat_of (keys_of self.now)) }
    {
        KeysIter::new(Positions::new(self.parts().0))
    }

    /// The position that each key names, under nulls too, in order and from both ends. Each key
    /// names a value.
    pub fn keys_values_iter(&self) -> KeysValuesIter<'_, K>
        requires { KeysInRange None self.now }
        ensures { result ≡ map nat_of (keys_of self.now) }
    {
        KeysValuesIter::new(Positions::new(self.parts().0))
    }

    /// The string at each slot, `None` at a null key, in order and from both ends. No value is
    /// null.
    ///
    /// Refused as InvalidOperation(ValuesKind) exactly where the layout of the values isn't that of
    /// `V`.
    pub fn iter_typed<V: DictValue>(&self) -> PolarsResult<DictionaryIterTyped<'_, K, V>>
        requires { null_count_of (values_of self.now) ≡ 0 }
        ensures slots { IfOk result (λ it. denote self.now ≡ map (slot_or_null bytes) it) }
        ensures kind { IfOk result (λ it. IsStoredAs V.physical (values_of self.now)) }
        ensures refused { IfErr result (λ e. (e ≡ InvalidOperation ValuesKind)
            × (IsStoredAs V.physical (values_of self.now) → ⊥)) }
    {
        let (keys, values) = self.parts();
        let texts = texts_of::<V>(values)?;
        Ok(DictionaryIterTyped::new(Texts::new(keys, texts)))
    }

    /// The string at each slot, in order and from both ends. No key and no value is null.
    ///
    /// Refused as `iter_typed` is.
    pub fn values_iter_typed<V: DictValue>(
        &self,
    ) -> PolarsResult<DictionaryValuesIterTyped<'_, K, V>>
        requires keys { null_count_of self.now ≡ 0 }
        requires values { null_count_of (values_of self.now) ≡ 0 }
        ensures slots { IfOk result (λ it. denote self.now ≡ map bytes it) }
        ensures kind { IfOk result (λ it. IsStoredAs V.physical (values_of self.now)) }
        ensures refused { IfErr result (λ e. (e ≡ InvalidOperation ValuesKind)
            × (IsStoredAs V.physical (values_of self.now) → ⊥)) }
    {
        let (keys, values) = self.parts();
        let texts = texts_of::<V>(values)?;
        Ok(DictionaryValuesIterTyped::new(Texts::new(keys, texts)))
    }
}

/// The values as strings of this kind, and else InvalidOperation(ValuesKind).
fn texts_of<V: DictValue>(values: &ArrayRef) -> PolarsResult<&V>
    ensures found { MatchResult result (λ v. V.layout v.now ≡ values.now)
        (λ e. (e ≡ InvalidOperation ValuesKind) × (IsStoredAs V.physical values.now → ⊥)) }
    ensures kind { IfOk result (λ v. IsStoredAs V.physical values.now) }
    ensures texts { IfOk result (λ v. under (V.layout v.now) ≡ map bytes (V.texts v.now)) }
{
    match V::downcast_values(values) {
        Some(texts) => Ok(texts),
        None => Err(PolarsError::InvalidOperation(Reason::ValuesKind)),
    }
}

/// The type of dictionaries with keys of this type and values of this one, unordered.
#[tactic(auto, using(arrow_flat::proofs::TypeViews::seen_types))]
fn unordered_type(alloc: Global, key: IntegerType, values: &ArrowDataType) -> Mem<ArrowDataType>
    ensures { IfOk result (λ t. seen t ≡ T.dictionary key (seen values.now) false) }
{
    let values = values.try_clone(alloc)?;
    Ok(ArrowDataType::Dictionary(key, Boxed::new(alloc, values)?, false))
}

/// The keys and the values of a dictionary, None exactly where the layout is another.
fn parts_of<K: DictionaryKey>(array: &ArrayRef) -> Option<(&PrimitiveArray<K>, &ArrayRef)>
    ensures { MatchOption result (IsStoredAs (physical.Dictionary K.KEY_TYPE) array.now → ⊥)
        (λ p. array.now ≡ dictionary_of K.parts (type_of array.now) p.0.now p.1.now) }
{
    match array.node() {
        Node::Dictionary { keys, child, .. } => match K::of_keys(keys) {
            Some(keys) => Some((keys, child)),
            None => None,
        },
        _ => None,
    }
}

/// The type of the keys, that of the values, and whether these are ordered, of a type of
/// dictionaries; extensions around it are looked through. None for another type.
#[tactic(auto, using(arrow_flat::proofs::TypeViews::seen_types))]
fn dictionary_type(dtype: &ArrowDataType) -> Option<(IntegerType, &ArrowDataType, bool)>
    ensures parts { MatchOption result (IsDictionary (seen dtype.now) → ⊥)
        (λ p. form_of (seen dtype.now) ≡ dictionaries_of p.0 (seen p.1.now)) }
    ensures order { IfSome result (λ p. order_of (seen dtype.now) ≡ p.2) }
{
    match dtype {
        ArrowDataType::Dictionary(key, values, is_ordered) => {
            Some((*key, values.get(), *is_ordered))
        }
        ArrowDataType::Extension(extension) => dictionary_type(&extension.get().inner),
        _ => None,
    }
}

/// That the parts make a dictionary, and else the first test that fails.
fn check_parts<K: DictionaryKey>(
    dtype: &ArrowDataType,
    keys: &PrimitiveArray<K>,
    values: &ArrayRef,
) -> Result<(), Reason>
    ensures { let parts = dictionary_of K.parts (seen dtype.now) keys.now values.now in
        MatchResult result (λ done. IsAccepted K.KEY_TYPE parts)
        (λ reason. RefusedFor reason K.KEY_TYPE parts) }
{
    check_types(K::KEY_TYPE, dtype, keys.dtype(), values.dtype())?;
    if keys.null_count() != keys.len() && !name_values(keys, &None, values.len()) {
        return Err(Reason::KeyRange);
    }
    Ok(())
}

/// That these are the types of a dictionary with keys of this type, of its keys and of its values,
/// and else the first test that fails.
fn check_types(
    key: IntegerType,
    dtype: &ArrowDataType,
    keys: &ArrowDataType,
    values: &ArrowDataType,
) -> Result<(), Reason>
    ensures { let t = seen dtype.now in
        MatchResult result
        (λ done. IsDictionary t × HasKeyType key t (seen keys.now)
        × HasValueType t (seen values.now))
        (λ reason. TypesRefusedFor reason key t (seen keys.now) (seen values.now)) }
{
    let Some((declared, value_type, _)) = dictionary_type(dtype) else {
        return Err(Reason::WrongLogicalType);
    };
    if declared != key || !is_integer_type(keys, key) {
        return Err(Reason::KeyType);
    }
    if !is_same(value_type.to_logical_type(), values.to_logical_type()) {
        return Err(Reason::ValueType);
    }
    Ok(())
}

/// Whether the type is the plain type of these integers.
fn is_integer_type(dtype: &ArrowDataType, integer: IntegerType) -> bool
    ensures { IsTrue result ↔ (seen dtype.now ≡ integer_type integer) }
{
    is_same(dtype, &ArrowDataType::from(integer))
}
