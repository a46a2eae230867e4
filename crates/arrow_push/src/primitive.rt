//! The builder of values of one width.
ghost use Rattle.std.specs.Prelude.{◌≡◌, Some};
ghost use Rattle.arrow_types.specs.Seen.{seen as type_of};
ghost use Rattle.arrow_types.specs.Types.{physical_of, primitive_type};
ghost use Rattle.arrow_types.specs.declared.datatype.PhysicalType.TheVariants as physical;
ghost use Rattle.arrow_flat.specs.Natives.{IsNative};

use crate::{FreshValues, MaskedBuilder, SolidValues, TryPush, ValuesBuilder, ValuesLaws};
use arrow_buffers::{Bitmap, Buffer};
use arrow_flat::{Building, NativeType, PrimitiveArray, TryClone};
use arrow_types::{ArrowDataType, Mem, PolarsResult, PrimitiveType};
use std::alloc::Global;
use std::marker::Model;

/// A builder of values of one width, without nulls, seen as its type and its values.
pub struct PrimitiveValues<T: NativeType> {
    dtype: ArrowDataType,
    values: Vec<T>,
}

/// By hand: a place where a value may end then has one call to prove, and not the drop of each
/// field.
impl<T: NativeType> Drop for PrimitiveValues<T> {
    fn drop(self) {
        let PrimitiveValues {
            dtype: _,
            values: _,
        } = self;
    }
}

impl<T: NativeType> Model for PrimitiveValues<T> {
    ghost use Rattle.std.specs.Prelude.{◌≡◌, Some};
    ghost use Rattle.std.specs.Coded.{codes};
    ghost use Rattle.arrow_types.specs.Seen.{seen as type_of};
    ghost use Rattle.arrow_types.specs.Types.{physical_of};
    ghost use Rattle.arrow_types.specs.declared.datatype.PhysicalType.TheVariants as physical;
    ghost use Rattle.arrow_types.specs.contracts.datatype.ArrowDataType as data_type;
    ghost use Rattle.arrow_push.specs.Flat.{TypedValues};

    ghost Value = { TypedValues T };

    ghost coded = { Prim.hlevel (codes, data_type.the_row.coded) };

    ghost view = { λ b. record { dtype = b.dtype; values = b.values.items } };

    ghost invariant = { λ b.
        physical_of (type_of b.dtype) ≡ Some (physical.Primitive T.PRIMITIVE) };
}

/// A builder of values of one width and nulls.
pub type MutablePrimitiveArray<T> = MaskedBuilder<PrimitiveValues<T>>;

impl<T: NativeType> Building for PrimitiveValues<T> {
    ghost use Rattle.arrow_push.specs.Flat.{built_of, number};
    ghost use Rattle.arrow_push.specs.Laws.{flat_starts};

    ghost seen = { built_of (number T.parts) };

    ghost starts = { flat_starts (number T.parts) };
}

impl<T: NativeType> ValuesLaws for PrimitiveValues<T> {
    ghost use Rattle.std.specs.Prelude.{refl};
    ghost use Rattle.arrow_flat.specs.Numbers.{zeros};
    ghost use Rattle.arrow_flat.specs.Slots.{num};
    ghost use Rattle.arrow_push.specs.Flat.{number};
    ghost use Rattle.arrow_push.specs.Laws.{flat_valid};

    ghost blank = { λ t. num (zeros T.PRIMITIVE) };

    ghost whole = { λ b. refl };

    ghost plain = { λ b ys. refl };

    ghost valid = { λ b. flat_valid (number T.parts) (λ x. refl) b.values };
}

impl<T: NativeType> ValuesBuilder for PrimitiveValues<T> {
    ghost use Rattle.std.specs.Prelude.{map};
    ghost use Rattle.arrow_types.specs.Seen.{seen as type_of};
    ghost use Rattle.arrow_flat.specs.Primitives.{slots};
    ghost use Rattle.arrow_push.specs.Flat.{number};
    ghost use Rattle.arrow_flat.specs.Slots.{slot_or_null};
    ghost use Rattle.arrow_layout.specs.Layouts.{primitives};

    type Array = PrimitiveArray<T>;

    ghost finished = { λ a. record {
      dtype = type_of a.dtype;
      slots = map (slot_or_null (number T.parts)) (slots a);
      validity = a.mask;
    } };

    ghost layout = { λ a. primitives (type_of a.dtype) a.mask (map T.parts a.values) };

    fn dtype(&self) -> &ArrowDataType {
        &self.dtype
    }

    fn len(&self) -> usize {
        self.values.len()
    }

    fn allocator(&self) -> Global {
        *self.values.allocator()
    }

    fn push_blank(&mut self) -> Mem<()> {
        self.values.push(T::zero())?;
        Ok(())
    }

    fn extend_values(&mut self, other: &PrimitiveValues<T>) -> PolarsResult<()> {
        self.values.extend_from_slice(other.values.as_slice())?;
        Ok(())
    }

    fn truncate(&mut self, len: usize) {
        self.values.truncate(len);
    }

    fn reserve(&mut self, additional: usize) -> Mem<()> {
        self.values.reserve(additional)
    }

    fn shrink_to_fit(&mut self) -> Mem<()> {
        self.values.shrink_to_fit();
        Ok(())
    }

    fn finish_under(&mut self, validity: Option<Bitmap>) -> Mem<PrimitiveArray<T>> {
        let alloc = *self.values.allocator();
        let values = std::mem::replace(&mut self.values, Vec::new(alloc));
        let dtype = self.dtype.try_clone(alloc)?;
        let values = Buffer::from_vec(alloc, values)?;
        Ok(PrimitiveArray::new(dtype, values, validity))
    }
}

impl<T: NativeType> TryClone for PrimitiveValues<T> {
    fn try_clone(&self, alloc: Global) -> Mem<PrimitiveValues<T>> {
        let mut values = Vec::new(alloc);
        values.extend_from_slice(self.values.as_slice())?;
        let dtype = self.dtype.try_clone(alloc)?;
        Ok(PrimitiveValues { dtype, values })
    }
}

impl<T: NativeType> FreshValues for PrimitiveValues<T> {
    ghost use Rattle.arrow_push.specs.Flat.{plain_type_of};

    ghost plain_type = { plain_type_of T.PRIMITIVE };

    fn fresh(alloc: Global) -> Mem<PrimitiveValues<T>> {
        Ok(PrimitiveValues {
            dtype: plain_type(T::PRIMITIVE),
            values: Vec::new(alloc),
        })
    }
}

impl<T: NativeType> TryPush<T> for PrimitiveValues<T> {
    ghost use Rattle.std.specs.Prelude.{◌≡◌, ⊤};
    ghost use Rattle.arrow_push.specs.Flat.{number};

    ghost can_take = { λ x. ⊤ };

    ghost stands_for = { λ x y. y ≡ number T.parts x };

    ghost begins = { λ x y. y ≡ number T.parts x };

    fn try_push(&mut self, item: T) -> PolarsResult<()> {
        self.values.push(item)?;
        Ok(())
    }
}

impl<T: NativeType> SolidValues<T> for PrimitiveValues<T> {
    ghost use Rattle.std.proofs.Common.{ap};
    ghost use Rattle.arrow_flat.specs.Slots.{is_valid};

    ghost solid = { λ x y e. ap is_valid e };

    ghost solid_begun = { λ x y e. ap is_valid e };
}

/// The type of values of one width, with no meaning beside their numbers.
fn plain_type(primitive: PrimitiveType) -> ArrowDataType
    requires { IsNative primitive }
    ensures plain { Some (type_of result) ≡ primitive_type primitive }
    ensures stored { physical_of (type_of result) ≡ Some (physical.Primitive primitive) }
{
    match ArrowDataType::from_primitive(primitive) {
        Some(dtype) => dtype,
        None => unreachable!(),
    }
}
