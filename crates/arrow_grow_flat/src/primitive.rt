//! The growable of values of one width.

use crate::sources::share_all;
use crate::{FlatGrowable, GrowableValues};
use arrow_buffers::{Bitmap, Buffer};
use arrow_flat::PrimitiveArray;
use arrow_meaning::{ArrayRef, FlatArray, FlatNode, NodeNative};
use arrow_types::{ArrowDataType, GrowError, Mem};
use std::alloc::Global;
use std::marker::Model;

/// A growable of values of one width.
pub type GrowablePrimitive<T> = FlatGrowable<GrowingPrimitives<T>>;

/// Values of one width that grow out of those of arrays.
pub struct GrowingPrimitives<T: NodeNative> {
    dtype: ArrowDataType,
    arrays: Vec<PrimitiveArray<T>>,
    values: Vec<T>,
}

/// By hand: where a value may end there is one call to prove then, not the drop of each field.
impl<T: NodeNative> Drop for GrowingPrimitives<T> {
    fn drop(self) {
        let GrowingPrimitives {
            dtype: _,
            arrays: _,
            values: _,
        } = self;
    }
}

impl<T: NodeNative> Model for GrowingPrimitives<T> {
    ghost use Rattle.std.specs.Prelude.{map};
    ghost use Rattle.arrow_types.specs.Seen.{seen as type_of};
    ghost use Rattle.arrow_types.specs.declared.datatype.PhysicalType.TheVariants as physical;
    ghost use Rattle.arrow_meaning.specs.Nodes.{primitive_layout};
    ghost use Rattle.arrow_grow_flat.specs.Values.{Values, values_code, AreStored};
    ghost use Rattle.arrow_grow_flat.specs.Kinds.{number_values};

    ghost Value = { Values };

    ghost coded = { values_code };

    ghost view = { λ v. number_values T.parts (type_of v.dtype) v.arrays.items v.values.items };

    ghost invariant = { λ v. AreStored (physical.Primitive T.PRIMITIVE)
        (number_values T.parts (type_of v.dtype) v.arrays.items v.values.items) };
}

impl<T: NodeNative> GrowableValues for GrowingPrimitives<T> {
    ghost use Rattle.std.specs.Prelude.{⊤};
    ghost use Rattle.arrow_meaning.specs.Nodes.{primitive_layout};

    type Array = PrimitiveArray<T>;

    ghost seen = { λ v. v };

    ghost layout = { primitive_layout T.parts };

    ghost blank = { λ x. ⊤ };

    fn new(
        alloc: Global,
        arrays: &[PrimitiveArray<T>],
        capacity: usize,
    ) -> Mem<GrowingPrimitives<T>> {
        let sources = share_all(alloc, arrays)?;
        FlatNode::invariant(&arrays[0]);
        let dtype = arrays[0].dtype().try_clone(alloc)?;
        let mut values = Vec::new(alloc);
        values.reserve(capacity)?;
        Ok(GrowingPrimitives {
            dtype,
            arrays: sources,
            values,
        })
    }

    fn invariant(&self) {
        self.values.len();
    }

    fn array_count(&self) -> usize {
        self.arrays.len()
    }

    fn array_len(&self, index: usize) -> usize {
        self.arrays[index].len()
    }

    fn mask(&self, index: usize) -> Option<&Bitmap> {
        self.arrays[index].validity()
    }

    fn len(&self) -> usize {
        self.values.len()
    }

    fn extend(&mut self, index: usize, start: usize, len: usize) -> Result<(), GrowError> {
        let source = self.arrays[index].values().as_slice();
        self.values.extend_from_slice(&source[start..start + len])?;
        Ok(())
    }

    fn extend_nulls(&mut self, additional: usize) -> Result<(), GrowError> {
        let Some(length) = self.values.len().checked_add(additional) else {
            return Err(GrowError::Overflow);
        };
        self.values.resize(length, T::zero())?;
        Ok(())
    }

    fn finish(&mut self, alloc: Global, validity: Option<Bitmap>) -> Mem<PrimitiveArray<T>> {
        let values = std::mem::replace(&mut self.values, Vec::new(alloc));
        let dtype = self.dtype.try_clone(alloc)?;
        let values = Buffer::from_vec(alloc, values)?;
        Ok(PrimitiveArray::new(dtype, values, validity))
    }

    fn boxed(alloc: Global, array: PrimitiveArray<T>) -> Mem<ArrayRef> {
        array.boxed(alloc)
    }
}
