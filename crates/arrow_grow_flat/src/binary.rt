//! The growables of binary values and of strings of any length.
ghost use Rattle.std.specs.Prelude.{◌≡◌, IfOk};
ghost use Rattle.std.specs.Option.{option_copied};
ghost use Rattle.arrow_meaning.specs.Nodes.{binary_layout};

use crate::sources::share_all;
use crate::spans::{extend_empty, extend_slots, offsets_invariant};
use crate::{FlatGrowable, GrowableValues};
use arrow_buffers::{Bitmap, Buffer, Offsets};
use arrow_bytes::OffsetArray;
use arrow_flat::{ViewBytes, ViewStr, ViewType};
use arrow_meaning::{ArrayRef, FlatArray, FlatNode, NodeOffset};
use arrow_types::{ArrowDataType, GrowError, Mem};
use std::alloc::Global;
use std::marker::Model;

/// A growable of binary values.
pub type GrowableBinary<O> = FlatGrowable<GrowingBinaries<ViewBytes, O>>;

/// A growable of strings.
pub type GrowableUtf8<O> = FlatGrowable<GrowingBinaries<ViewStr, O>>;

/// Binary values or strings that grow out of those of arrays; a null has none of the bytes.
pub struct GrowingBinaries<K: ViewType, O: NodeOffset> {
    dtype: ArrowDataType,
    arrays: Vec<OffsetArray<K, O>>,
    offsets: Offsets<O>,
    values: Vec<u8>,
}

/// By hand: where a value may end there is one call to prove then, not the drop of each field.
impl<K: ViewType, O: NodeOffset> Drop for GrowingBinaries<K, O> {
    fn drop(self) {
        let GrowingBinaries {
            dtype: _,
            arrays: _,
            offsets: _,
            values: _,
        } = self;
    }
}

impl<K: ViewType, O: NodeOffset> Model for GrowingBinaries<K, O> {
    ghost use Rattle.arrow_types.specs.Seen.{seen as type_of};
    ghost use Rattle.arrow_grow_flat.specs.Kinds.{binary_values, AreBinaryValues};
    ghost use Rattle.arrow_grow_flat.specs.Values.{Values, values_code};

    ghost Value = { Values };

    ghost coded = { values_code };

    ghost view = { λ v.
        binary_values O.number (type_of v.dtype) v.arrays.items v.offsets v.values.items };

    ghost invariant = { λ v. AreBinaryValues K.IS_TEXT O.IS_LARGE O.number
        (type_of v.dtype) v.arrays.items v.offsets v.values.items };
}

impl<K: ViewType, O: NodeOffset> GrowableValues for GrowingBinaries<K, O> {
    ghost use Rattle.std.specs.Prelude.{◌≡◌, []};
    ghost use Rattle.arrow_flat.specs.Slots.{bytes};
    ghost use Rattle.arrow_meaning.specs.Nodes.{binary_layout};

    type Array = OffsetArray<K, O>;

    ghost seen = { λ v. v };

    ghost layout = { binary_layout O.number };

    ghost blank = { λ x. x ≡ bytes [] };

    fn new(
        alloc: Global,
        arrays: &[OffsetArray<K, O>],
        capacity: usize,
    ) -> Mem<GrowingBinaries<K, O>> {
        let sources = share_all(alloc, arrays)?;
        FlatNode::invariant(&arrays[0]);
        let dtype = arrays[0].dtype().try_clone(alloc)?;
        let mut offsets = Offsets::new(alloc)?;
        offsets.reserve(capacity)?;
        Ok(GrowingBinaries {
            dtype,
            arrays: sources,
            offsets,
            values: Vec::new(alloc),
        })
    }

    fn invariant(&self) {
        self.values.len();
    }

    fn array_count(&self) -> usize {
        self.arrays.len()
    }

    fn array_len(&self, index: usize) -> usize {
        self.arrays[index].len()
    }

    fn mask(&self, index: usize) -> Option<&Bitmap> {
        self.arrays[index].validity()
    }

    fn len(&self) -> usize {
        self.offsets.len_proxy()
    }

    fn extend(&mut self, index: usize, start: usize, len: usize) -> Result<(), GrowError> {
        let source = &self.arrays[index];
        FlatNode::invariant(source);
        extend_slots(&mut self.offsets, &mut self.values, source, start, len)?;
        offsets_invariant(&self.offsets);
        Ok(())
    }

    fn extend_nulls(&mut self, additional: usize) -> Result<(), GrowError> {
        extend_empty(&mut self.offsets, &self.values, additional)?;
        offsets_invariant(&self.offsets);
        Ok(())
    }

    fn finish(&mut self, alloc: Global, validity: Option<Bitmap>) -> Mem<OffsetArray<K, O>> {
        let fresh = Offsets::new(alloc)?;
        let offsets = std::mem::replace(&mut self.offsets, fresh);
        let values = std::mem::replace(&mut self.values, Vec::new(alloc));
        let dtype = self.dtype.try_clone(alloc)?;
        let offsets = offsets.freeze()?;
        let values = Buffer::from_vec(alloc, values)?;
        Ok(OffsetArray::new(dtype, offsets, values, validity))
    }

    fn boxed(alloc: Global, array: OffsetArray<K, O>) -> Mem<ArrayRef> {
        boxed_array(alloc, &array)
    }
}

/// The array as one of any layout.
fn boxed_array<K: ViewType, O: NodeOffset>(
    alloc: Global,
    array: &OffsetArray<K, O>,
) -> Mem<ArrayRef>
    ensures { IfOk result (λ a. a ≡ binary_layout O.number array.now) }
{
    if K::IS_TEXT {
        copy_as::<K, ViewStr, O>(alloc, array)?.boxed(alloc)
    } else {
        copy_as::<K, ViewBytes, O>(alloc, array)?.boxed(alloc)
    }
}

/// A shared copy, with the other marker of the same kind of values.
fn copy_as<K: ViewType, L: ViewType, O: NodeOffset>(
    alloc: Global,
    array: &OffsetArray<K, O>,
) -> Mem<OffsetArray<L, O>>
    requires { L.IS_TEXT ≡ K.IS_TEXT }
    ensures { IfOk result (λ a. a ≡ array.now) }
{
    OffsetArray::invariant(array);
    let validity = copy_mask(alloc, array.validity())?;
    let offsets = array.offsets().try_clone(alloc)?;
    let values = array.values().try_clone(alloc)?;
    let dtype = array.dtype().try_clone(alloc)?;
    Ok(OffsetArray::new(dtype, offsets, values, validity))
}

/// A shared copy of a mask, where there is one.
fn copy_mask(alloc: Global, mask: Option<&Bitmap>) -> Mem<Option<Bitmap>>
    ensures { IfOk result (λ m. m ≡ option_copied mask.entry) }
{
    match mask {
        None => Ok(None),
        Some(mask) => Ok(Some(mask.try_clone(alloc)?)),
    }
}
