//! The calls of a builder as a table, and the array that they are to give.
#![tactic(auto)]

ghost use Rattle.std.specs.Prelude.{Option, Some, None};
ghost use Rattle.arrow_push.specs.Items.{CanTakeSome};

use arrow_buffers::Offset;
use arrow_bytes::{BinaryArray, FixedSizeBinaryArray, Utf8Array};
use arrow_flat::{BooleanArray, PrimitiveArray, TryClone};
use arrow_push::{
    MaskedBuilder, NullableBuilder, ReserveBytes, SolidValues, TryExtend, TryExtendFromSelf,
    TryPush, ValuesBuilder,
};
use arrow_types::{ArrowDataType, Mem, PolarsError, PolarsResult, Reason};
use arrow_views::{BinaryViewArray, Utf8ViewArray};
use std::alloc::Global;

/// A call of a builder.
#[derive(Clone, Copy)]
pub enum Call<'a, A> {
    Reserve(usize),
    Push(Option<A>),
    /// A push that is refused as ComputeError with this reason.
    PushRefused(Option<A>, Reason),
    PushNull,
    /// A value and a null are pushed through the bound.
    Fill(A),
    Extend(&'a [Option<A>]),
    /// The slots of another builder are appended, which are these.
    Append(&'a [Option<A>]),
    ShrinkToFit,
    /// The first slots are kept, and there are more.
    Truncate(usize),
}

/// What a call answers that does not do what the table says.
const UNEXPECTED: PolarsError = PolarsError::Unsupported;

/// An error unless a push was refused for this reason.
fn refused(outcome: PolarsResult<()>, reason: Reason) -> PolarsResult<()> {
    if outcome == Err(PolarsError::ComputeError(reason)) {
        Ok(())
    } else {
        Err(UNEXPECTED)
    }
}

/// A value and a null, through the bound.
fn fill<A: Copy, B: TryPush<Option<A>>>(builder: &mut B, value: A) -> PolarsResult<()>
    requires { B.can_take (Some value) × B.can_take None }
{
    builder.try_push(Some(value))?;
    builder.try_push(None)
}

/// Appends the slots of another builder, which has the same type.
#[tactic(auto, using(arrow_types::specs::TypeExact::type_same))]
fn append<V: ValuesBuilder>(
    builder: &mut MaskedBuilder<V>,
    other: &MaskedBuilder<V>,
) -> PolarsResult<()> {
    if *other.dtype() == *builder.dtype() {
        builder.try_extend_from_self(other)
    } else {
        Err(UNEXPECTED)
    }
}

/// Keeps the first slots, where there are more.
fn truncate<V: ValuesBuilder>(builder: &mut MaskedBuilder<V>, len: usize) -> PolarsResult<()> {
    if len >= builder.len() {
        return Err(UNEXPECTED);
    }
    builder.truncate(len);
    Ok(())
}

/// Makes one call; the other builder is an empty one of the same type.
fn make<A: Copy, V: ValuesBuilder + SolidValues<A>>(
    builder: &mut MaskedBuilder<V>,
    other: &mut MaskedBuilder<V>,
    call: &Call<'_, A>,
) -> PolarsResult<()>
    requires { (x : Option A) → CanTakeSome V.TryPush.can_take x }
{
    match *call {
        Call::Reserve(additional) => Ok(builder.reserve(additional)?),
        Call::Push(slot) => builder.try_push(slot),
        Call::PushRefused(slot, reason) => refused(builder.try_push(slot), reason),
        Call::PushNull => builder.push_null(),
        Call::Fill(value) => fill(builder, value),
        Call::Extend(slots) => builder.try_extend(slots.iter().copied()),
        Call::Append(slots) => {
            other.try_extend(slots.iter().copied())?;
            append(builder, other)
        }
        Call::ShrinkToFit => Ok(builder.shrink_to_fit()?),
        Call::Truncate(len) => truncate(builder, len),
    }
}

/// An array that is compared with its slots.
pub trait Slots<A> {
    /// Whether the array has this type and these slots.
    fn has(&self, dtype: &ArrowDataType, slots: &[Option<A>]) -> bool;
}

/// Whether two types are equal.
pub fn is_same_type(a: &ArrowDataType, b: &ArrowDataType) -> bool {
    *a == *b
}

/// Whether the calls give an array of this type and these slots, and leave the builder empty and
/// without a mask.
fn gives_after<A: Copy, V: ValuesBuilder + SolidValues<A>>(
    builder: &mut MaskedBuilder<V>,
    other: &mut MaskedBuilder<V>,
    calls: &[Call<'_, A>],
    dtype: &ArrowDataType,
    slots: &[Option<A>],
) -> PolarsResult<bool>
where
    V::Array: Slots<A>,
    requires { (x : Option A) → CanTakeSome V.TryPush.can_take x }
{
    for call in calls {
        make(builder, other, call)?;
    }
    let array = builder.finish()?;
    let is_right = array.has(dtype, slots) && builder.is_empty() && builder.validity().is_none();
    drop(array);
    Ok(is_right)
}

/// Whether the calls of a new builder give an array of this type and these slots, and leave it
/// empty and without a mask. The other new builder is the one whose slots are appended.
pub fn gives<A: Copy, V: ValuesBuilder + SolidValues<A> + Drop>(
    builder: Mem<MaskedBuilder<V>>,
    other: Mem<MaskedBuilder<V>>,
    calls: &[Call<'_, A>],
    dtype: ArrowDataType,
    slots: &[Option<A>],
) -> PolarsResult<bool>
where
    V::Array: Slots<A>,
    requires { (x : Option A) → CanTakeSome V.TryPush.can_take x }
{
    let mut builder = builder?;
    let mut other = other?;
    let is_right = gives_after(&mut builder, &mut other, calls, &dtype, slots);
    drop(builder);
    drop(other);
    drop(dtype);
    is_right
}

/// Whether a value leaves the builder without a mask, and a null after it begins the mask of both.
fn masks_after_a_null<A: Copy, V: ValuesBuilder + SolidValues<A>>(
    builder: &mut MaskedBuilder<V>,
    value: A,
) -> PolarsResult<bool>
    requires { V.TryPush.can_take value }
{
    builder.try_push(Some(value))?;
    let is_absent = builder.validity().is_none();
    builder.try_push(None)?;
    Ok(is_absent && builder.validity().is_some_and(|mask| mask.len() == 2))
}

/// Whether the mask of a new builder begins with the first null.
pub fn begins_its_mask<A: Copy, V: ValuesBuilder + SolidValues<A> + Drop>(
    builder: Mem<MaskedBuilder<V>>,
    value: A,
) -> PolarsResult<bool>
    requires { V.TryPush.can_take value }
{
    let mut builder = builder?;
    let is_right = masks_after_a_null(&mut builder, value);
    drop(builder);
    is_right
}

/// Whether a builder makes room for slots that have `bytes` bytes together.
pub fn makes_room<V: ReserveBytes + Drop>(
    builder: Mem<MaskedBuilder<V>>,
    additional: usize,
    bytes: usize,
) -> PolarsResult<bool> {
    let mut builder = builder?;
    let outcome = builder.reserve_bytes(additional, bytes);
    let is_right = builder.is_empty();
    drop(builder);
    outcome?;
    Ok(is_right)
}

/// Whether a builder is copied through the trait.
pub fn is_copied<B: TryClone + Drop>(alloc: Global, builder: Mem<B>) -> PolarsResult<bool> {
    let builder = builder?;
    let copy = builder.try_clone(alloc);
    let is_right = copy.is_ok();
    drop(copy);
    drop(builder);
    Ok(is_right)
}

impl Slots<i32> for PrimitiveArray<i32> {
    fn has(&self, dtype: &ArrowDataType, slots: &[Option<i32>]) -> bool {
        is_same_type(self.dtype(), dtype) && self.iter().eq(slots.iter().copied())
    }
}

impl Slots<i64> for PrimitiveArray<i64> {
    fn has(&self, dtype: &ArrowDataType, slots: &[Option<i64>]) -> bool {
        is_same_type(self.dtype(), dtype) && self.iter().eq(slots.iter().copied())
    }
}

impl Slots<bool> for BooleanArray {
    fn has(&self, dtype: &ArrowDataType, slots: &[Option<bool>]) -> bool {
        is_same_type(self.dtype(), dtype) && self.iter().eq(slots.iter().copied())
    }
}

impl<'a, O: Offset> Slots<&'a [u8]> for BinaryArray<O> {
    fn has(&self, dtype: &ArrowDataType, slots: &[Option<&'a [u8]>]) -> bool {
        is_same_type(self.dtype(), dtype) && self.iter().eq(slots.iter().copied())
    }
}

impl<'a> Slots<&'a [u8]> for FixedSizeBinaryArray {
    fn has(&self, dtype: &ArrowDataType, slots: &[Option<&'a [u8]>]) -> bool {
        is_same_type(self.dtype(), dtype) && self.iter().eq(slots.iter().copied())
    }
}

impl<'a, O: Offset> Slots<&'a str> for Utf8Array<O> {
    fn has(&self, dtype: &ArrowDataType, slots: &[Option<&'a str>]) -> bool {
        is_same_type(self.dtype(), dtype) && self.iter().eq(slots.iter().copied())
    }
}

impl<'a> Slots<&'a [u8]> for BinaryViewArray {
    fn has(&self, dtype: &ArrowDataType, slots: &[Option<&'a [u8]>]) -> bool {
        is_same_type(self.dtype(), dtype) && self.iter().eq(slots.iter().copied())
    }
}

impl<'a> Slots<&'a str> for Utf8ViewArray {
    fn has(&self, dtype: &ArrowDataType, slots: &[Option<&'a str>]) -> bool {
        is_same_type(self.dtype(), dtype) && self.iter().eq(slots.iter().copied())
    }
}
