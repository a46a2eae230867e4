//! The growable of single bits.
use crate::sources::share_all;
use crate::{FlatGrowable, GrowableValues};
use arrow_buffers::{Bitmap, MutableBitmap};
use arrow_flat::BooleanArray;
use arrow_meaning::{ArrayRef, FlatArray, FlatNode};
use arrow_types::{ArrowDataType, GrowError, Mem};
use std::alloc::Global;
use std::marker::Model;

/// A growable of single bits.
pub type GrowableBoolean = FlatGrowable<GrowingBooleans>;

/// Single bits that grow out of those of arrays.
pub struct GrowingBooleans {
    dtype: ArrowDataType,
    arrays: Vec<BooleanArray>,
    values: MutableBitmap,
}

/// By hand: where a value may end there is one call to prove then, not the drop of each field.
impl Drop for GrowingBooleans {
    fn drop(self) {
        let GrowingBooleans {
            dtype: _,
            arrays: _,
            values: _,
        } = self;
    }
}

impl Model for GrowingBooleans {
    ghost use Rattle.arrow_types.specs.Seen.{seen as type_of};
    ghost use Rattle.arrow_types.specs.declared.datatype.PhysicalType.TheVariants as physical;
    ghost use Rattle.arrow_grow_flat.specs.Kinds.{bit_values};
    ghost use Rattle.arrow_grow_flat.specs.Values.{Values, values_code, AreStored};

    ghost Value = { Values };

    ghost coded = { values_code };

    ghost view = { λ v. bit_values (type_of v.dtype) v.arrays.items v.values };

    ghost invariant = { λ v.
        AreStored physical.Boolean (bit_values (type_of v.dtype) v.arrays.items v.values) };
}

impl GrowableValues for GrowingBooleans {
    ghost use Rattle.std.specs.Prelude.{⊤};
    ghost use Rattle.arrow_meaning.specs.Nodes.{boolean_layout};

    type Array = BooleanArray;

    ghost seen = { λ v. v };

    ghost layout = { boolean_layout };

    ghost blank = { λ x. ⊤ };

    fn new(alloc: Global, arrays: &[BooleanArray], capacity: usize) -> Mem<GrowingBooleans> {
        let sources = share_all(alloc, arrays)?;
        FlatNode::invariant(&arrays[0]);
        let dtype = arrays[0].dtype().try_clone(alloc)?;
        let mut values = MutableBitmap::new(alloc);
        values.reserve(capacity)?;
        Ok(GrowingBooleans {
            dtype,
            arrays: sources,
            values,
        })
    }

    fn invariant(&self) {
        self.values.len();
    }

    fn array_count(&self) -> usize {
        self.arrays.len()
    }

    fn array_len(&self, index: usize) -> usize {
        self.arrays[index].len()
    }

    fn mask(&self, index: usize) -> Option<&Bitmap> {
        self.arrays[index].validity()
    }

    fn len(&self) -> usize {
        self.values.len()
    }

    fn extend(&mut self, index: usize, start: usize, len: usize) -> Result<(), GrowError> {
        if self.values.len().checked_add(len).is_none() {
            return Err(GrowError::Overflow);
        }
        self.values
            .extend_from_range(self.arrays[index].values(), start, len)?;
        Ok(())
    }

    fn extend_nulls(&mut self, additional: usize) -> Result<(), GrowError> {
        if self.values.len().checked_add(additional).is_none() {
            return Err(GrowError::Overflow);
        }
        self.values.extend_constant(additional, false)?;
        Ok(())
    }

    fn finish(&mut self, alloc: Global, validity: Option<Bitmap>) -> Mem<BooleanArray> {
        let values = std::mem::replace(&mut self.values, MutableBitmap::new(alloc));
        let dtype = self.dtype.try_clone(alloc)?;
        let values = values.freeze()?;
        Ok(BooleanArray::new(dtype, values, validity))
    }

    fn boxed(alloc: Global, array: BooleanArray) -> Mem<ArrayRef> {
        array.boxed(alloc)
    }
}
