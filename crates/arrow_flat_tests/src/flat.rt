//! What no clause says: calls succeed with ample memory, which test comes first, and the generic
//! calls through their bounds.

use arrow_buffers::{Bitmap, BitmapBuilder, Buffer, MutableBitmap, Offsets, OffsetsBuffer};
use arrow_flat::{
    BooleanArray, DaysMs, Int32Array, MonthDayNano, NativeType, PrimitiveArray, TryClone,
};
use arrow_types::{
    ArrowDataType, Field, Fields, Ids, Mem, PlSmallStr, PolarsError, PolarsResult, Reason,
};
use flat_fixtures::{buffer_of, ends_as, gives, halves, mask_of, parts_of, twice};
use std::alloc::{AllocError, Global};
use std::test::Fail;

/// Two set bits and an unset one, and a mask of this length.
fn bit_parts(alloc: Global, length: Option<usize>) -> Mem<(Bitmap, Option<Bitmap>)> {
    let values = Bitmap::from_bools(alloc, &[true, true, false])?;
    let mask = mask_of(alloc, length)?;
    Ok((values, mask))
}

/// Bits of a type that fits or not.
fn booleans(alloc: Global, is_fitting: bool, length: Option<usize>) -> PolarsResult<BooleanArray> {
    let (values, mask) = bit_parts(alloc, length)?;
    let dtype = if is_fitting {
        ArrowDataType::Boolean
    } else {
        ArrowDataType::UInt8
    };
    BooleanArray::try_new(dtype, values, mask)
}

/// Numbers of a type that fits or not.
fn numbers(alloc: Global, is_fitting: bool, length: Option<usize>) -> PolarsResult<Int32Array> {
    let (values, mask) = parts_of(alloc, &[7, -1, 5], length)?;
    let dtype = if is_fitting {
        ArrowDataType::Date32
    } else {
        ArrowDataType::UInt32
    };
    Int32Array::try_new(dtype, values, mask)
}

const REFUSALS: [(bool, Option<usize>, Option<Reason>); 7] = [
    (true, None, None),
    (true, Some(3), None),
    (true, Some(2), Some(Reason::MaskLength)),
    (true, Some(4), Some(Reason::MaskLength)),
    (false, Some(2), Some(Reason::MaskLength)),
    (false, Some(3), Some(Reason::WrongLogicalType)),
    (false, None, Some(Reason::WrongLogicalType)),
];

#[test]
fn the_mask_is_tested_before_the_type(rt: HostRuntime) {
    let alloc = rt.alloc();
    for (is_fitting, length, wanted) in REFUSALS {
        assert!(rt; ends_as(booleans(alloc, is_fitting, length), wanted));
        assert!(rt; ends_as(numbers(alloc, is_fitting, length), wanted));
    }
}

const NUMBERS: [Option<i32>; 3] = [Some(7), None, Some(5)];

const BITS: [Option<bool>; 3] = [Some(true), None, Some(false)];

/// Whether numbers have these slots.
fn has_slots(array: &Int32Array, slots: &[Option<i32>]) -> bool {
    gives(array.iter(), slots)
}

/// The same of bits.
fn has_bits(array: &BooleanArray, slots: &[Option<bool>]) -> bool {
    gives(array.iter(), slots)
}

/// Whether numbers have their slots, from both ends.
fn are_numbers(array: &Int32Array) -> bool {
    array.null_count() == 1
        && has_slots(array, &NUMBERS)
        && gives(array.iter().rev(), &[Some(5), None, Some(7)])
        && gives(array.values_iter().rev(), &[5, -1, 7])
}

/// The same of bits.
fn are_bits(array: &BooleanArray) -> bool {
    array.null_count() == 1
        && has_bits(array, &BITS)
        && gives(array.iter().rev(), &[Some(false), None, Some(true)])
}

/// Whether three numbers are cut to the last two, and then to the last, which needs no mask.
fn is_cut(array: &mut Int32Array) -> bool {
    if array.len() != 3 {
        return false;
    }
    array.slice(1, 2);
    let is_masked = has_slots(array, &[None, Some(5)]) && array.validity().is_some();
    if array.len() != 2 {
        return false;
    }
    array.slice(1, 1);
    is_masked && has_slots(array, &[Some(5)]) && array.validity().is_none()
}

/// Whether three numbers without their mask are all values.
fn is_unmasked(array: &mut Int32Array) -> bool {
    array.set_validity(None);
    has_slots(array, &[Some(7), Some(-1), Some(5)])
}

#[test]
fn numbers_come_in_order_from_both_ends(rt: HostRuntime) -> Result<(), Fail> {
    let mut array = numbers(rt.alloc(), true, Some(3))?;
    let are_numbers = are_numbers(&array);
    let is_cut = is_cut(&mut array);
    drop(array);
    assert!(rt; are_numbers && is_cut);
    Ok(())
}

#[test]
fn a_mask_is_taken_away(rt: HostRuntime) -> Result<(), Fail> {
    let mut array = numbers(rt.alloc(), true, Some(3))?;
    let is_unmasked = is_unmasked(&mut array);
    drop(array);
    assert!(rt; is_unmasked);
    Ok(())
}

#[test]
fn bits_come_in_order_from_both_ends(rt: HostRuntime) -> Result<(), Fail> {
    let bits = booleans(rt.alloc(), true, Some(3))?;
    let are_bits = are_bits(&bits);
    drop(bits);
    assert!(rt; are_bits);
    Ok(())
}

/// Whether two copies of an iterator that is past the first slot give the others.
fn copies_go_on(alloc: Global, array: &Int32Array) -> Mem<bool> {
    let mut slots = array.iter();
    slots.next();
    let copies = twice(alloc, &slots);
    drop(slots);
    let (first, second) = copies?;
    Ok(gives(first, &[None, Some(5)]) && gives(second, &[None, Some(5)]))
}

#[test]
fn iterators_are_copied(rt: HostRuntime) -> Result<(), Fail> {
    let alloc = rt.alloc();
    let array = numbers(alloc, true, Some(3))?;
    let is_copied = copies_go_on(alloc, &array);
    drop(array);
    assert!(rt; is_copied?);
    Ok(())
}

/// Two values of any width.
fn zero_values<T: NativeType>(alloc: Global) -> Mem<Buffer<T>> {
    let mut values = Vec::new(alloc);
    values.push(T::zero())?;
    values.push(T::zero())?;
    Buffer::from_vec(alloc, values)
}

/// Two values of any width, the second a null.
fn zeros<T: NativeType>(alloc: Global) -> PolarsResult<PrimitiveArray<T>> {
    let values = zero_values(alloc)?;
    let mask = mask_of(alloc, Some(2))?;
    match ArrowDataType::from_primitive(T::PRIMITIVE) {
        Some(dtype) => PrimitiveArray::try_new(dtype, values, mask),
        None => Err(PolarsError::Unsupported),
    }
}

/// Whether an array has two slots, the second a null.
fn is_null_second<T: NativeType>(array: &PrimitiveArray<T>) -> bool {
    array.len() == 2 && array.is_valid(0) && array.is_null(1)
}

/// Whether arrays of this width are made.
fn has_a_null<T: NativeType>(alloc: Global) -> bool {
    match zeros::<T>(alloc) {
        Ok(array) => {
            let is_null_second = is_null_second(&array);
            drop(array);
            is_null_second
        }
        Err(_) => false,
    }
}

#[test]
fn each_width_has_arrays(rt: HostRuntime) {
    let alloc = rt.alloc();
    assert!(rt; has_a_null::<i8>(alloc) && has_a_null::<i16>(alloc) && has_a_null::<i32>(alloc));
    assert!(rt; has_a_null::<i64>(alloc) && has_a_null::<i128>(alloc));
    assert!(rt; has_a_null::<u8>(alloc) && has_a_null::<u16>(alloc) && has_a_null::<u32>(alloc));
    assert!(rt; has_a_null::<u64>(alloc));
    assert!(rt; has_a_null::<DaysMs>(alloc) && has_a_null::<MonthDayNano>(alloc));
}

/// What has no `==`, and is seen as another.
trait Alike {
    fn is_alike(&self, other: &Self) -> bool;
}

impl Alike for Option<Bitmap> {
    fn is_alike(&self, other: &Option<Bitmap>) -> bool {
        self.is_some() && other.is_some()
    }
}

impl Alike for OffsetsBuffer<i64> {
    fn is_alike(&self, other: &OffsetsBuffer<i64>) -> bool {
        self.len_proxy() == 0 && other.len_proxy() == 0
    }
}

impl Alike for Offsets<i64> {
    fn is_alike(&self, other: &Offsets<i64>) -> bool {
        self.as_slice() == [0, 2].as_slice() && other.as_slice() == self.as_slice()
    }
}

impl Alike for MutableBitmap {
    fn is_alike(&self, other: &MutableBitmap) -> bool {
        self.len() == 2 && other.len() == 2 && !self.get(1) && !other.get(1)
    }
}

impl Alike for BitmapBuilder {
    fn is_alike(&self, other: &BitmapBuilder) -> bool {
        self.len() == 2 && other.len() == 2 && !self.get(1) && !other.get(1)
    }
}

impl Alike for Ids {
    fn is_alike(&self, other: &Ids) -> bool {
        self.as_slice() == [5, 7].as_slice() && other.as_slice() == self.as_slice()
    }
}

impl Alike for Fields {
    fn is_alike(&self, other: &Fields) -> bool {
        self.as_slice() == other.as_slice() && self.len() == 1
    }
}

impl Alike for Buffer<i32> {
    fn is_alike(&self, other: &Buffer<i32>) -> bool {
        self.as_slice() == [7, -1, 5].as_slice() && other.as_slice() == self.as_slice()
    }
}

impl Alike for Int32Array {
    fn is_alike(&self, other: &Int32Array) -> bool {
        self.iter().eq(other.iter())
    }
}

impl Alike for BooleanArray {
    fn is_alike(&self, other: &BooleanArray) -> bool {
        self.iter().eq(other.iter())
    }
}

/// Whether two copies, through the bound, are alike.
fn are_alike<T: TryClone + Alike + Drop>(alloc: Global, value: &T) -> Mem<bool> {
    let (first, second) = twice(alloc, value)?;
    let are_alike = first.is_alike(value) && second.is_alike(value);
    drop(first);
    drop(second);
    Ok(are_alike)
}

/// Whether the value was made, and its copies are alike.
fn is_copied<T: TryClone + Alike + Drop, E: Drop>(alloc: Global, made: Result<T, E>) -> bool {
    match made {
        Ok(value) => {
            let are_alike = are_alike(alloc, &value);
            drop(value);
            are_alike.unwrap_or(false)
        }
        Err(error) => {
            drop(error);
            false
        }
    }
}

fn offsets(alloc: Global) -> Mem<OffsetsBuffer<i64>> {
    Offsets::new(alloc)?.freeze()
}

/// Offsets of one slot of two items.
fn growing_offsets(alloc: Global) -> Mem<Offsets<i64>> {
    match Offsets::try_from_vec(Vec::from_slice(alloc, &[0, 2])?) {
        Ok(offsets) => Ok(offsets),
        Err(_) => Err(AllocError),
    }
}

/// A set bit and an unset one.
fn push_bits(bits: &mut MutableBitmap) -> Mem<()> {
    bits.push(true)?;
    bits.push(false)
}

fn growing_bits(alloc: Global) -> Mem<MutableBitmap> {
    let mut bits = MutableBitmap::new(alloc);
    push_bits(&mut bits)?;
    Ok(bits)
}

/// The same to grow into a mask.
fn push_mask(bits: &mut BitmapBuilder) -> Mem<()> {
    bits.push(true)?;
    bits.push(false)
}

fn growing_mask(alloc: Global) -> Mem<BitmapBuilder> {
    let mut bits = BitmapBuilder::new(alloc);
    push_mask(&mut bits)?;
    Ok(bits)
}

fn fields(alloc: Global) -> Mem<Fields> {
    let name = PlSmallStr::try_from_str(alloc, "a")?;
    let field = Field::new(name, ArrowDataType::Utf8, true);
    Ok(Fields::from_vec(vec![in alloc; field]?))
}

#[test]
fn copies_of_what_grows_are_alike(rt: HostRuntime) {
    let alloc = rt.alloc();
    assert!(rt; is_copied(alloc, growing_offsets(alloc)));
    assert!(rt; is_copied(alloc, growing_bits(alloc)) && is_copied(alloc, growing_mask(alloc)));
    assert!(rt;
        is_copied(alloc, fields(alloc)) && is_copied(alloc, Ids::from_slice(alloc, &[5, 7]))
    );
}

#[test]
fn copies_are_alike(rt: HostRuntime) {
    let alloc = rt.alloc();
    assert!(rt;
        is_copied(alloc, buffer_of(alloc, &[7, -1, 5])) && is_copied(alloc, offsets(alloc))
    );
    assert!(rt; is_copied(alloc, numbers(alloc, true, Some(3))));
    assert!(rt; is_copied(alloc, booleans(alloc, true, Some(3))));
    assert!(rt; is_copied(alloc, mask_of(alloc, Some(3))));
}

/// Whether both halves of a mask are masks, or which; None where there are no halves.
fn are_masked(alloc: Global, mask: &Option<Bitmap>, offset: usize) -> Mem<Option<(bool, bool)>> {
    let Some((front, rest)) = halves(alloc, mask, offset)? else {
        return Ok(None);
    };
    let are_masked = (front.is_some(), rest.is_some());
    drop(front);
    drop(rest);
    Ok(Some(are_masked))
}

/// Whether the halves of a mask of this length are masks so.
fn mask_halves_are(
    alloc: Global,
    length: Option<usize>,
    offset: usize,
    wanted: Option<(bool, bool)>,
) -> Mem<bool> {
    let mask = mask_of(alloc, length)?;
    let are_masked = are_masked(alloc, &mask, offset);
    drop(mask);
    Ok(are_masked? == wanted)
}

const MASK_HALVES: [(usize, Option<(bool, bool)>); 5] = [
    (0, Some((false, true))),
    (1, Some((false, true))),
    (2, Some((true, false))),
    (3, Some((true, false))),
    (4, None),
];

#[test]
fn halves_keep_the_masks_that_they_need(rt: HostRuntime) -> Result<(), Fail> {
    let alloc = rt.alloc();
    for (offset, wanted) in MASK_HALVES {
        let of_mask = mask_halves_are(alloc, Some(3), offset, wanted)?;
        let of_none = mask_halves_are(alloc, None, offset, Some((false, false)))?;
        assert!(rt; of_mask && of_none, "{offset}");
    }
    Ok(())
}

/// Whether halves of numbers have the slots of the whole, and which have masks.
fn are_number_halves(
    front: &Int32Array,
    rest: &Int32Array,
    offset: usize,
    masks: (bool, bool),
) -> bool {
    (front.validity().is_some(), rest.validity().is_some()) == masks
        && offset <= 3
        && has_slots(front, &NUMBERS[..offset])
        && has_slots(rest, &NUMBERS[offset..])
}

/// The same of bits.
fn are_bit_halves(
    front: &BooleanArray,
    rest: &BooleanArray,
    offset: usize,
    masks: (bool, bool),
) -> bool {
    (front.validity().is_some(), rest.validity().is_some()) == masks
        && offset <= 3
        && has_bits(front, &BITS[..offset])
        && has_bits(rest, &BITS[offset..])
}

/// Whether numbers have halves with these masks, or none where none are wanted.
fn number_halves_are(
    alloc: Global,
    array: &Int32Array,
    offset: usize,
    wanted: Option<(bool, bool)>,
) -> Mem<bool> {
    let Some((front, rest)) = halves(alloc, array, offset)? else {
        return Ok(wanted.is_none());
    };
    let are_halves = match wanted {
        Some(masks) => are_number_halves(&front, &rest, offset, masks),
        None => false,
    };
    drop(front);
    drop(rest);
    Ok(are_halves)
}

/// The same of bits.
fn bit_halves_are(
    alloc: Global,
    array: &BooleanArray,
    offset: usize,
    wanted: Option<(bool, bool)>,
) -> Mem<bool> {
    let Some((front, rest)) = halves(alloc, array, offset)? else {
        return Ok(wanted.is_none());
    };
    let are_halves = match wanted {
        Some(masks) => are_bit_halves(&front, &rest, offset, masks),
        None => false,
    };
    drop(front);
    drop(rest);
    Ok(are_halves)
}

/// The same of three numbers.
fn numbers_halve(alloc: Global, offset: usize, wanted: Option<(bool, bool)>) -> PolarsResult<bool> {
    let array = numbers(alloc, true, Some(3))?;
    let are_halves = number_halves_are(alloc, &array, offset, wanted);
    drop(array);
    Ok(are_halves?)
}

/// The same of three bits.
fn bits_halve(alloc: Global, offset: usize, wanted: Option<(bool, bool)>) -> PolarsResult<bool> {
    let bits = booleans(alloc, true, Some(3))?;
    let are_halves = bit_halves_are(alloc, &bits, offset, wanted);
    drop(bits);
    Ok(are_halves?)
}

const HALVES: [(usize, Option<(bool, bool)>); 3] = [
    (1, Some((false, true))),
    (2, Some((true, false))),
    (4, None),
];

#[test]
fn halves_have_the_slots_of_the_whole(rt: HostRuntime) -> Result<(), Fail> {
    let alloc = rt.alloc();
    for (offset, wanted) in HALVES {
        let of_numbers = numbers_halve(alloc, offset, wanted)?;
        let of_bits = bits_halve(alloc, offset, wanted)?;
        assert!(rt; of_numbers && of_bits, "{offset}");
    }
    Ok(())
}
