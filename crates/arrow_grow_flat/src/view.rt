//! The growable of binary values and of strings by views.
ghost use Rattle.std.specs.Prelude.{◌≡◌, ◌↔◌, ◌+◌, ◌^◌, ◌<◌, ◌≤◌, ◌++◌, List, drop, length as count, map, take, IfOk, IsErrOf, IsTrue, MatchResult, OnErr, OnOk};
ghost use Rattle.arrow_types.specs.declared.error.GrowError.TheVariants as grow;
ghost use Rattle.arrow_flat.specs.Natives.{octets};
ghost use Rattle.arrow_flat.specs.Packs.{view_limit};
ghost use Rattle.arrow_flat.specs.Views.{IsView, view_bytes, view_length};
ghost use Rattle.arrow_views.specs.ViewArrays.{ViewArray};
ghost use Rattle.arrow_views.specs.ViewParts.{buffer_of};
ghost use Rattle.arrow_grow_flat.specs.SharedViews.{AreLongValues, AreViewsOf, IsShared, KeepViews, buffer_starts, byte_count, joined_buffers, long_buffers, shifted, slot_value, slot_values, slot_view, slot_views};

use crate::sources::share_all;
use crate::{FlatGrowable, GrowableValues};
use arrow_buffers::{Bitmap, Buffer};
use arrow_flat::ViewType;
use arrow_meaning::{ArrayRef, FlatArray, FlatNode, NodeView};
use arrow_types::{ArrowDataType, GrowError, Mem};
use arrow_views::{BinaryViewArrayGeneric, View, ViewPacker};
use std::alloc::{AllocError, Global};
use std::marker::Model;

/// The most bytes that the values have together.
const MOST_BYTES: usize = 1 << 62;

/// A growable of binary values or of strings by views. Its arrays' buffers are shared, one array's
/// after another's, so that no value of more than twelve bytes is copied; where they are 2^32 or
/// more, which a view can't number, such values are packed into buffers of the growable. The view
/// of a null is that of no bytes.
pub type GrowableBinaryViewArray<T> = FlatGrowable<GrowingViews<T>>;

/// Views that grow out of those of arrays.
pub struct GrowingViews<T: NodeView> {
    dtype: ArrowDataType,
    arrays: Vec<BinaryViewArrayGeneric<T>>,
    values: LongValues,
    views: Vec<View>,
    /// How many bytes the values have together.
    total: usize,
}

/// Where values of more than twelve bytes stand.
enum LongValues {
    /// In the buffers of all arrays, one array's after another's, and where those of each begin.
    Shared {
        starts: Vec<usize>,
        buffers: Vec<Buffer<u8>>,
    },
    /// In buffers of their own.
    Packed(ViewPacker),
}

/// By hand: where a value may end there is one call to prove then, not the drop of each field.
impl Drop for LongValues {
    fn drop(self) {
        match self {
            LongValues::Shared {
                starts: _,
                buffers: _,
            } => {}
            LongValues::Packed(_) => {}
        }
    }
}

/// By hand: where a value may end there is one call to prove then, not the drop of each field.
impl<T: NodeView> Drop for GrowingViews<T> {
    fn drop(self) {
        let GrowingViews {
            dtype: _,
            arrays: _,
            values: _,
            views: _,
            total: _,
        } = self;
    }
}

impl<T: NodeView> Model for GrowingViews<T> {
    ghost use Rattle.arrow_types.specs.Seen.{seen as type_of};
    ghost use Rattle.arrow_grow_flat.specs.SharedViews.{AreGrowingViews, AreLongValues, long_buffers, view_values};
    ghost use Rattle.arrow_grow_flat.specs.Values.{Values, values_code};

    ghost Value = { Values };

    ghost coded = { values_code };

    ghost view = { λ v.
        view_values (type_of v.dtype) v.arrays.items (long_buffers v.values) v.views.items };

    ghost invariant = { λ v. AreLongValues v.arrays.items v.values
        × AreGrowingViews T.IS_TEXT (type_of v.dtype) v.arrays.items (long_buffers v.values)
        v.views.items v.total };
}

impl<T: NodeView> GrowableValues for GrowingViews<T> {
    ghost use Rattle.arrow_meaning.specs.Nodes.{view_layout};
    ghost use Rattle.arrow_grow_flat.specs.SharedViews.{IsEmptyValue};

    type Array = BinaryViewArrayGeneric<T>;

    ghost seen = { λ v. v };

    ghost layout = { view_layout };

    ghost blank = { IsEmptyValue };

    fn new(
        alloc: Global,
        arrays: &[BinaryViewArrayGeneric<T>],
        capacity: usize,
    ) -> Mem<GrowingViews<T>> {
        let sources = share_all(alloc, arrays)?;
        FlatNode::invariant(&arrays[0]);
        let dtype = arrays[0].dtype().try_clone(alloc)?;
        let values = LongValues::new(alloc, arrays)?;
        let mut views = Vec::new(alloc);
        views.reserve(capacity)?;
        Ok(GrowingViews {
            dtype,
            arrays: sources,
            values,
            views,
            total: 0,
        })
    }

    fn invariant(&self) {
        self.views.len();
    }

    fn array_count(&self) -> usize {
        self.arrays.len()
    }

    fn array_len(&self, index: usize) -> usize {
        self.arrays[index].len()
    }

    fn mask(&self, index: usize) -> Option<&Bitmap> {
        self.arrays[index].validity()
    }

    fn len(&self) -> usize {
        self.views.len()
    }

    fn extend(&mut self, index: usize, start: usize, len: usize) -> Result<(), GrowError> {
        let array = &self.arrays[index];
        array.invariant();
        let views = &mut self.views;
        let total = &mut self.total;
        match &mut self.values {
            LongValues::Shared { starts, buffers: _ } => {
                extend_shared(views, total, array, starts[index], start, len)
            }
            LongValues::Packed(packer) => extend_packed(views, total, packer, array, start, len),
        }
    }

    fn extend_nulls(&mut self, additional: usize) -> Result<(), GrowError> {
        let Some(length) = self.views.len().checked_add(additional) else {
            return Err(GrowError::Overflow);
        };
        self.views.resize(length, View::new_inline(&[]))?;
        Ok(())
    }

    fn finish(
        &mut self,
        alloc: Global,
        validity: Option<Bitmap>,
    ) -> Mem<BinaryViewArrayGeneric<T>> {
        let views = std::mem::replace(&mut self.views, Vec::new(alloc));
        self.total = 0;
        let dtype = self.dtype.try_clone(alloc)?;
        let buffers = self.values.finish(alloc)?;
        let views = Buffer::from_vec(alloc, views)?;
        Ok(BinaryViewArrayGeneric::new(dtype, views, buffers, validity))
    }

    fn boxed(alloc: Global, array: BinaryViewArrayGeneric<T>) -> Mem<ArrayRef> {
        array.boxed(alloc)
    }
}

impl LongValues {
    /// The buffers of the arrays, where a view can number them; else none yet.
    fn new<T: ViewType>(alloc: Global, arrays: &[BinaryViewArrayGeneric<T>]) -> Mem<LongValues>
        ensures held { IfOk result (λ v. AreLongValues arrays.now v) }
        ensures shared { IfOk result (λ v.
            IsShared v ↔ (count (joined_buffers arrays.now) < 2 ^ 32)) }
    {
        if has_few_buffers(arrays) {
            let mut starts = Vec::with_capacity(alloc, arrays.len())?;
            let mut buffers = Vec::new(alloc);
            push_all_buffers(alloc, &mut starts, &mut buffers, arrays)?;
            Ok(LongValues::Shared { starts, buffers })
        } else {
            let packer = ViewPacker::new(alloc, u32::MAX)?;
            Ok(LongValues::Packed(packer))
        }
    }

    /// The buffers that the values stand in, for an array; no values are left.
    fn finish(&mut self, alloc: Global) -> Mem<Vec<Buffer<u8>>>
        ensures made { IfOk result (λ bs. map octets bs.items ≡ long_buffers self.old) }
        ensures held { (arrays : List ViewArray) →
            AreLongValues arrays self.old → AreLongValues arrays self.new }
    {
        match self {
            LongValues::Shared { starts: _, buffers } => {
                let mut shared = Vec::new(alloc);
                push_buffers(alloc, &mut shared, buffers)?;
                Ok(shared)
            }
            LongValues::Packed(packer) => {
                let empty = ViewPacker::new(alloc, u32::MAX)?;
                let packed = std::mem::replace(packer, empty);
                packed.finish()
            }
        }
    }
}

/// Whether a view can number the buffers of all arrays: they are fewer than 2^32.
fn has_few_buffers<T: ViewType>(arrays: &[BinaryViewArrayGeneric<T>]) -> bool
    ensures { IsTrue result ↔ (count (joined_buffers arrays.now) < 2 ^ 32) }
{
    let mut total = 0;
    for array in arrays {
        let more = array.data_buffers().len();
        if more > u32::MAX as usize - total {
            return false;
        }
        total += more;
    }
    true
}

/// Appends the buffers of all arrays to none, and where those of each begin.
fn push_all_buffers<T: ViewType>(
    alloc: Global,
    starts: &mut Vec<usize>,
    buffers: &mut Vec<Buffer<u8>>,
    arrays: &[BinaryViewArrayGeneric<T>],
) -> Mem<()>
    requires no_starts { count starts.old.items ≡ 0 }
    requires no_buffers { count buffers.old.items ≡ 0 }
    ensures starts { OnOk result (starts.new.items ≡ buffer_starts 0 arrays.now) }
    ensures joined { OnOk result (map octets buffers.new.items ≡ joined_buffers arrays.now) }
{
    for array in arrays {
        starts.push(buffers.len())?;
        push_buffers(alloc, buffers, array.data_buffers())?;
    }
    Ok(())
}

/// Appends shared copies of buffers.
fn push_buffers(alloc: Global, buffers: &mut Vec<Buffer<u8>>, source: &[Buffer<u8>]) -> Mem<()>
    ensures { OnOk result (buffers.new.items ≡ buffers.old.items ++ source.now) }
{
    for buffer in source {
        buffers.push(buffer.try_clone(alloc)?)?;
    }
    Ok(())
}

/// Appends the views for n slots of an array whose buffers begin at `first`, where all values, with
/// `total` bytes before, have at most 2^62 bytes then; else Overflow. A refused call changes
/// nothing.
fn extend_shared<T: ViewType>(
    views: &mut Vec<View>,
    total: &mut usize,
    array: &BinaryViewArrayGeneric<T>,
    first: usize,
    start: usize,
    len: usize,
) -> Result<(), GrowError>
    requires reached { start + len ≤ count array.now.views }
    requires numbered { first + count array.now.buffers < 2 ^ 32 }
    requires few { total.old ≤ 2 ^ 62 }
    ensures more { OnOk result
        (views.new.items ≡ views.old.items ++ slot_views first array.now start len) }
    ensures counted { OnOk result
        (total.new ≡ total.old + byte_count (slot_values array.now start len)) }
    ensures within { total.new ≤ 2 ^ 62 }
    ensures same { OnErr result
        ((views.new.items ≡ views.old.items) × (total.new ≡ total.old)) }
    ensures overflow { IsErrOf result grow.Overflow →
        2 ^ 62 < total.old + byte_count (slot_values array.now start len) }
{
    let count = views.len();
    match push_shared(views, array, first, start, len, *total) {
        Ok(all) => {
            *total = all;
            Ok(())
        }
        Err(error) => {
            views.truncate(count);
            Err(error)
        }
    }
}

/// Appends the views for n slots of an array whose buffers begin at `first`, and returns how many
/// bytes all values have then, those before having `before`. Overflow where these are more than
/// 2^62. A refused call may have appended some.
fn push_shared<T: ViewType>(
    views: &mut Vec<View>,
    array: &BinaryViewArrayGeneric<T>,
    first: usize,
    start: usize,
    len: usize,
    before: usize,
) -> Result<usize, GrowError>
    requires reached { start + len ≤ count array.now.views }
    requires numbered { first + count array.now.buffers < 2 ^ 32 }
    requires few { before ≤ 2 ^ 62 }
    ensures ok { IfOk result (λ n.
        (n ≡ before + byte_count (slot_values array.now start len)) × (n ≤ 2 ^ 62)) }
    ensures more { OnOk result
        (views.new.items ≡ views.old.items ++ slot_views first array.now start len) }
    ensures kept { take (count views.old.items) views.new.items ≡ views.old.items }
    ensures overflow { IsErrOf result grow.Overflow →
        2 ^ 62 < before + byte_count (slot_values array.now start len) }
{
    array.len();
    array.invariant();
    let mut total = before;
    for i in 0..len {
        let view = slot_view(array, first, start + i);
        total = with_length(total, view.length() as usize)?;
        views.push(view)?;
    }
    Ok(total)
}

/// Packs the values of n slots of an array and appends their views, where all values, with `total`
/// bytes before, have at most 2^62 bytes then; else Overflow. A refused call changes no view.
fn extend_packed<T: ViewType>(
    views: &mut Vec<View>,
    total: &mut usize,
    packer: &mut ViewPacker,
    array: &BinaryViewArrayGeneric<T>,
    start: usize,
    len: usize,
) -> Result<(), GrowError>
    requires limit { packer.old.limit ≡ view_limit }
    requires reached { start + len ≤ count array.now.views }
    requires few { total.old ≤ 2 ^ 62 }
    ensures limit { packer.new.limit ≡ view_limit }
    ensures keep { KeepViews packer.old.buffers packer.new.buffers }
    ensures front { OnOk result
        (take (count views.old.items) views.new.items ≡ views.old.items) }
    ensures more { OnOk result (AreViewsOf packer.new.buffers
        (drop (count views.old.items) views.new.items) (slot_values array.now start len)) }
    ensures counted { OnOk result
        (total.new ≡ total.old + byte_count (slot_values array.now start len)) }
    ensures within { total.new ≤ 2 ^ 62 }
    ensures same { OnErr result
        ((views.new.items ≡ views.old.items) × (total.new ≡ total.old)) }
    ensures overflow { IsErrOf result grow.Overflow →
        2 ^ 62 < total.old + byte_count (slot_values array.now start len) }
{
    let count = views.len();
    match push_packed(views, packer, array, start, len, *total) {
        Ok(all) => {
            *total = all;
            Ok(())
        }
        Err(error) => {
            views.truncate(count);
            Err(error)
        }
    }
}

/// Packs the values of n slots of an array and appends their views, and returns how many bytes all
/// values have then, those before having `before`. Overflow where these are more than 2^62. A
/// refused call may have packed and appended some.
fn push_packed<T: ViewType>(
    views: &mut Vec<View>,
    packer: &mut ViewPacker,
    array: &BinaryViewArrayGeneric<T>,
    start: usize,
    len: usize,
    before: usize,
) -> Result<usize, GrowError>
    requires limit { packer.old.limit ≡ view_limit }
    requires reached { start + len ≤ count array.now.views }
    requires few { before ≤ 2 ^ 62 }
    ensures limit { packer.new.limit ≡ view_limit }
    ensures keep { KeepViews packer.old.buffers packer.new.buffers }
    ensures kept { take (count views.old.items) views.new.items ≡ views.old.items }
    ensures more { OnOk result (AreViewsOf packer.new.buffers
        (drop (count views.old.items) views.new.items) (slot_values array.now start len)) }
    ensures ok { IfOk result (λ n.
        (n ≡ before + byte_count (slot_values array.now start len)) × (n ≤ 2 ^ 62)) }
    ensures overflow { IsErrOf result grow.Overflow →
        2 ^ 62 < before + byte_count (slot_values array.now start len) }
{
    array.len();
    let mut total = before;
    for i in 0..len {
        let value = slot_bytes(array, start + i);
        total = with_length(total, value.len())?;
        views.push(pack_value(packer, value)?)?;
    }
    Ok(total)
}

/// The view of one value more. Refused where there are 2^32 - 1 buffers, too.
fn pack_value(packer: &mut ViewPacker, value: &[u8]) -> Mem<View>
    requires limit { packer.old.limit ≡ view_limit }
    requires fits { count value.now ≤ view_limit }
    ensures limit { packer.new.limit ≡ view_limit }
    ensures keep { KeepViews packer.old.buffers packer.new.buffers }
    ensures view { IfOk result (λ v. IsView packer.new.buffers v
        × (view_bytes packer.new.buffers v ≡ octets value.now)) }
{
    if packer.buffer_count() >= u32::MAX as usize {
        return Err(AllocError);
    }
    packer.push_value(value)
}

/// How many bytes there are with a value of `length` more. Overflow where these are more than 2^62.
fn with_length(total: usize, length: usize) -> Result<usize, GrowError>
    requires { total ≤ 2 ^ 62 }
    ensures { MatchResult result (λ n. (n ≡ total + length) × (n ≤ 2 ^ 62))
        (λ e. (e ≡ grow.Overflow) × (2 ^ 62 < total + length)) }
{
    if length > MOST_BYTES - total {
        return Err(GrowError::Overflow);
    }
    Ok(total + length)
}

/// The bytes of the value at a slot, none for a null.
fn slot_bytes<T: ViewType>(array: &BinaryViewArrayGeneric<T>, i: usize) -> &[u8]
    requires { i < count array.now.views }
    ensures value { octets result.now ≡ slot_value array.now i }
    ensures fits { count result.now ≤ view_limit }
{
    array.invariant();
    if array.is_valid(i) {
        array.value_bytes(i)
    } else {
        &[]
    }
}

/// The view for a slot of an array whose buffers begin at `first`: that of no bytes for a null.
fn slot_view<T: ViewType>(array: &BinaryViewArrayGeneric<T>, first: usize, i: usize) -> View
    requires slot { i < count array.now.views }
    requires numbered { first + count array.now.buffers < 2 ^ 32 }
    ensures { result ≡ slot_view first array.now i }
{
    array.invariant();
    if array.is_valid(i) {
        shift(&array.views().as_slice()[i], first)
    } else {
        View::new_inline(&[])
    }
}

/// The view with the number of its buffer raised.
fn shift(view: &View, first: usize) -> View
    requires { 12 < view_length view.now → first + buffer_of view.now < 2 ^ 32 }
    ensures { result ≡ shifted first view.now }
{
    if view.length() <= 12 {
        return *view;
    }
    let bytes = view.as_bytes();
    let prefix = [bytes[4], bytes[5], bytes[6], bytes[7]];
    let buffer = first as u32 + view.buffer();
    View::new_long(view.length(), prefix, buffer, view.offset())
}
