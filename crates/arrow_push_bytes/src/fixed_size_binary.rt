//! The builder of binary values of one size.
use arrow_buffers::{Bitmap, Buffer};
use arrow_bytes::FixedSizeBinaryArray;
use arrow_flat::{Building, TryClone};
use arrow_push::{
    MaskedBuilder, SolidValues, TryExtend, TryExtendFromSelf, TryPush, ValuesBuilder, ValuesLaws,
    push_each,
};
use arrow_types::{ArrowDataType, Mem, PolarsError, PolarsResult, Reason};
use std::alloc::{AllocError, Global};
use std::marker::Model;

/// A builder of binary values of one size, without nulls, seen as its type, the size and its bytes.
pub struct FixedSizeBinaryValues {
    dtype: ArrowDataType,
    size: usize,
    values: Vec<u8>,
}

/// By hand: a place where a value may end then has one call to prove, and not the drop of each
/// field.
impl Drop for FixedSizeBinaryValues {
    fn drop(self) {
        let FixedSizeBinaryValues {
            dtype: _,
            size: _,
            values: _,
        } = self;
    }
}

impl Model for FixedSizeBinaryValues {
    ghost use Rattle.std.specs.Coded.{codes};
    ghost use Rattle.arrow_types.specs.contracts.datatype.ArrowDataType as data_type;
    ghost use Rattle.arrow_push_bytes.specs.BuiltSized.{SizedBytes, AreSized};

    ghost Value = { SizedBytes };

    ghost coded = { Prim.hlevel (codes, data_type.the_row.coded) };

    ghost view = { λ b. record { dtype = b.dtype; size = b.size; bytes = b.values.items } };

    ghost invariant = { λ b. AreSized record {
      dtype = b.dtype;
      size = b.size;
      bytes = b.values.items;
    } };
}

/// A builder of binary values of one size and nulls.
pub type MutableFixedSizeBinaryArray = MaskedBuilder<FixedSizeBinaryValues>;

/// A builder that is made for values of a given size.
pub trait NewSized: Building {
    ghost use Rattle.std.specs.Prelude.{◌≡◌, ◌<◌, [], IfOk};
    ghost use Rattle.arrow_types.specs.TypeData.{fixed_size_binary};

    /// No slots yet, for values of `size` bytes each.
    fn new_sized(alloc: Global, size: usize) -> Mem<Self>
        requires { 0 < size }
        ensures slots { IfOk result (λ b. (Self.seen b).slots ≡ []) }
        ensures kind { IfOk result (λ b. (Self.seen b).dtype ≡ fixed_size_binary size) };
}

impl Building for FixedSizeBinaryValues {
    ghost use Rattle.std.specs.Prelude.{refl};
    ghost use Rattle.arrow_types.specs.Seen.{seen as type_of};
    ghost use Rattle.arrow_push_bytes.specs.BuiltSized.{built_sized, sized_strings, width_refusal};
    ghost use Rattle.arrow_push_bytes.specs.Laws.{strings_start};

    ghost seen = { λ b. built_sized b.size (type_of b.dtype) b.bytes };

    ghost starts = { λ b. strings_start (λ xs ys. width_refusal b.size ys) (type_of b.dtype)
        (sized_strings b.size b.bytes) refl };
}

impl NewSized for FixedSizeBinaryValues {
    #[tactic(auto, using(arrow_flat::proofs::TypeViews::seen_types))]
    fn new_sized(alloc: Global, size: usize) -> Mem<FixedSizeBinaryValues> {
        Ok(FixedSizeBinaryValues {
            dtype: ArrowDataType::FixedSizeBinary(size),
            size,
            values: Vec::new(alloc),
        })
    }
}

impl<V: ValuesBuilder + NewSized> NewSized for MaskedBuilder<V> {
    fn new_sized(alloc: Global, size: usize) -> Mem<MaskedBuilder<V>> {
        Ok(MaskedBuilder::over(V::new_sized(alloc, size)?))
    }
}

impl ValuesLaws for FixedSizeBinaryValues {
    ghost use Rattle.std.specs.Prelude.{refl};
    ghost use Rattle.arrow_push_bytes.specs.BuiltSized.{zeros_of, sized_strings};
    ghost use Rattle.arrow_push_bytes.specs.Laws.{strings_valid};

    ghost blank = { zeros_of };

    ghost whole = { λ b. refl };

    ghost plain = { λ b ys. refl };

    ghost valid = { λ b. strings_valid (sized_strings b.size b.bytes) };
}

impl ValuesBuilder for FixedSizeBinaryValues {
    ghost use Rattle.arrow_push_bytes.specs.BuiltSized.{finished_sized, sized_array_layout};

    type Array = FixedSizeBinaryArray;

    ghost finished = { finished_sized };

    ghost layout = { sized_array_layout };

    fn dtype(&self) -> &ArrowDataType {
        &self.dtype
    }

    fn len(&self) -> usize {
        self.values.len() / self.size
    }

    fn allocator(&self) -> Global {
        *self.values.allocator()
    }

    fn push_blank(&mut self) -> Mem<()> {
        let Some(total) = self.values.len().checked_add(self.size) else {
            return Err(AllocError);
        };
        self.values.resize(total, 0)?;
        Ok(())
    }

    fn extend_values(&mut self, other: &FixedSizeBinaryValues) -> PolarsResult<()> {
        self.values.extend_from_slice(other.values.as_slice())?;
        Ok(())
    }

    fn truncate(&mut self, len: usize) {
        self.values.truncate(len * self.size);
    }

    fn reserve(&mut self, additional: usize) -> Mem<()> {
        match additional.checked_mul(self.size) {
            Some(bytes) => self.values.reserve(bytes),
            None => Err(AllocError),
        }
    }

    fn shrink_to_fit(&mut self) -> Mem<()> {
        self.values.shrink_to_fit();
        Ok(())
    }

    fn finish_under(&mut self, validity: Option<Bitmap>) -> Mem<FixedSizeBinaryArray> {
        let alloc = *self.values.allocator();
        let values = std::mem::replace(&mut self.values, Vec::new(alloc));
        let dtype = self.dtype.try_clone(alloc)?;
        let values = Buffer::from_vec(alloc, values)?;
        Ok(FixedSizeBinaryArray::new(dtype, values, validity))
    }
}

impl TryClone for FixedSizeBinaryValues {
    fn try_clone(&self, alloc: Global) -> Mem<FixedSizeBinaryValues> {
        let mut values = Vec::new(alloc);
        values.extend_from_slice(self.values.as_slice())?;
        let dtype = self.dtype.try_clone(alloc)?;
        Ok(FixedSizeBinaryValues {
            dtype,
            size: self.size,
            values,
        })
    }
}

impl<'a> TryPush<&'a [u8]> for FixedSizeBinaryValues {
    ghost use Rattle.std.specs.Prelude.{◌≡◌, ⊤};
    ghost use Rattle.arrow_flat.specs.Slots.{bytes};

    ghost can_take = { λ x. ⊤ };

    ghost stands_for = { λ x y. y ≡ bytes x.now };

    ghost begins = { λ x y. y ≡ bytes x.now };

    fn try_push(&mut self, item: &'a [u8]) -> PolarsResult<()> {
        if item.len() != self.size {
            return Err(PolarsError::ComputeError(Reason::WrongWidth));
        }
        self.values.extend_from_slice(item)?;
        Ok(())
    }
}

impl<'a> SolidValues<&'a [u8]> for FixedSizeBinaryValues {
    ghost use Rattle.std.proofs.Common.{ap};
    ghost use Rattle.arrow_flat.specs.Slots.{is_valid};

    ghost solid = { λ x y e. ap is_valid e };

    ghost solid_begun = { λ x y e. ap is_valid e };
}

impl<'a> TryExtend<&'a [u8]> for FixedSizeBinaryValues {
    ghost use Rattle.std.specs.Prelude.{◌≡◌, ⊤};
    ghost use Rattle.arrow_flat.specs.Slots.{bytes};

    ghost can_take = { λ x. ⊤ };

    ghost stands_for = { λ x y. y ≡ bytes x.now };

    ghost begins = { λ x y. y ≡ bytes x.now };

    fn try_extend<I: IntoIterator<Item = &'a [u8]>>(&mut self, iter: I) -> PolarsResult<()> {
        push_each(self, iter)
    }
}

impl TryExtendFromSelf for FixedSizeBinaryValues {
    ghost use Rattle.std.specs.Prelude.{⊤, map};
    ghost use Rattle.arrow_flat.specs.Slots.{bytes};
    ghost use Rattle.arrow_push_bytes.specs.BuiltSized.{sized_strings, width_refusal};

    ghost from_refusal = { λ a b.
        width_refusal a.size (map bytes (sized_strings b.size b.bytes)) };

    ghost Bare = { λ b. ⊤ };

    fn try_extend_from_self(&mut self, other: &FixedSizeBinaryValues) -> PolarsResult<()> {
        self.extend_values(other)
    }
}
