//! The growable of binary values of one size.
ghost use Rattle.std.specs.Prelude.{◌≡◌, ◌+◌, ◌*◌, ◌≤◌, length as count};
ghost use Rattle.arrow_bytes.specs.FixedSizeBinaries.{slot_count};
ghost use Rattle.arrow_layout.specs.Cut.{part};

use crate::sources::share_all;
use crate::{FlatGrowable, GrowableValues};
use arrow_buffers::{Bitmap, Buffer};
use arrow_bytes::FixedSizeBinaryArray;
use arrow_meaning::{ArrayRef, FlatArray, FlatNode};
use arrow_types::{ArrowDataType, GrowError, Mem};
use std::alloc::Global;
use std::marker::Model;

/// A growable of binary values of one size.
pub type GrowableFixedSizeBinary = FlatGrowable<GrowingFixedSizeBinaries>;

/// Binary values of one size that grow out of those of arrays.
pub struct GrowingFixedSizeBinaries {
    dtype: ArrowDataType,
    size: usize,
    arrays: Vec<FixedSizeBinaryArray>,
    values: Vec<u8>,
}

/// By hand: where a value may end there is one call to prove then, not the drop of each field.
impl Drop for GrowingFixedSizeBinaries {
    fn drop(self) {
        let GrowingFixedSizeBinaries {
            dtype: _,
            size: _,
            arrays: _,
            values: _,
        } = self;
    }
}

impl Model for GrowingFixedSizeBinaries {
    ghost use Rattle.arrow_types.specs.Seen.{seen as type_of};
    ghost use Rattle.arrow_grow_flat.specs.Kinds.{sized_values, AreSizedValues};
    ghost use Rattle.arrow_grow_flat.specs.Values.{Values, values_code};

    ghost Value = { Values };

    ghost coded = { values_code };

    ghost view = { λ v. sized_values (type_of v.dtype) v.arrays.items v.size v.values.items };

    ghost invariant = { λ v. AreSizedValues (type_of v.dtype) v.arrays.items v.size v.values.items };
}

impl GrowableValues for GrowingFixedSizeBinaries {
    ghost use Rattle.std.specs.Prelude.{⊤};
    ghost use Rattle.arrow_meaning.specs.Nodes.{fixed_size_binary_layout};

    type Array = FixedSizeBinaryArray;

    ghost seen = { λ v. v };

    ghost layout = { fixed_size_binary_layout };

    ghost blank = { λ x. ⊤ };

    fn new(
        alloc: Global,
        arrays: &[FixedSizeBinaryArray],
        capacity: usize,
    ) -> Mem<GrowingFixedSizeBinaries> {
        let sources = share_all(alloc, arrays)?;
        FixedSizeBinaryArray::invariant(&arrays[0]);
        let size = arrays[0].size();
        let dtype = arrays[0].dtype().try_clone(alloc)?;
        let mut values = Vec::new(alloc);
        values.reserve(capacity.saturating_mul(size))?;
        Ok(GrowingFixedSizeBinaries {
            dtype,
            size,
            arrays: sources,
            values,
        })
    }

    fn invariant(&self) {
        self.values.len();
    }

    fn array_count(&self) -> usize {
        self.arrays.len()
    }

    fn array_len(&self, index: usize) -> usize {
        self.arrays[index].len()
    }

    fn mask(&self, index: usize) -> Option<&Bitmap> {
        self.arrays[index].validity()
    }

    fn len(&self) -> usize {
        self.values.len() / self.size
    }

    fn extend(&mut self, index: usize, start: usize, len: usize) -> Result<(), GrowError> {
        self.values
            .extend_from_slice(bytes_of_slots(&self.arrays[index], start, len))?;
        Ok(())
    }

    fn extend_nulls(&mut self, additional: usize) -> Result<(), GrowError> {
        let Some(bytes) = additional.checked_mul(self.size) else {
            return Err(GrowError::Overflow);
        };
        let Some(length) = self.values.len().checked_add(bytes) else {
            return Err(GrowError::Overflow);
        };
        self.values.resize(length, 0)?;
        Ok(())
    }

    fn finish(&mut self, alloc: Global, validity: Option<Bitmap>) -> Mem<FixedSizeBinaryArray> {
        let values = std::mem::replace(&mut self.values, Vec::new(alloc));
        let dtype = self.dtype.try_clone(alloc)?;
        let values = Buffer::from_vec(alloc, values)?;
        Ok(FixedSizeBinaryArray::new(dtype, values, validity))
    }

    fn boxed(alloc: Global, array: FixedSizeBinaryArray) -> Mem<ArrayRef> {
        array.boxed(alloc)
    }
}

/// The bytes of n slots of an array, those under nulls too.
fn bytes_of_slots(array: &FixedSizeBinaryArray, start: usize, len: usize) -> &[u8]
    requires { start + len ≤ slot_count array.now }
    ensures { let size = array.now.size in
        result.now ≡ part (start * size) (len * size) array.now.values }
{
    pieces(array.values().as_slice(), array.size(), start, len)
}

/// `len` pieces of `size` bytes, from piece `start` on.
fn pieces(bytes: &[u8], size: usize, start: usize, len: usize) -> &[u8]
    requires { start * size + len * size ≤ count bytes.now }
    ensures { result.now ≡ part (start * size) (len * size) bytes.now }
{
    let from = start * size;
    &bytes[from..from + len * size]
}
