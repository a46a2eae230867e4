//! The builder of bits.
use crate::mask::push_bits;
use crate::{FreshValues, MaskedBuilder, SolidValues, TryPush, ValuesBuilder, ValuesLaws};
use arrow_buffers::{Bitmap, MutableBitmap};
use arrow_flat::{BooleanArray, Building, TryClone};
use arrow_types::{ArrowDataType, Mem, PolarsResult};
use std::alloc::Global;
use std::marker::Model;

/// A builder of bits, without nulls, seen as its type and its bits.
pub struct BooleanValues {
    dtype: ArrowDataType,
    values: MutableBitmap,
    alloc: Global,
}

/// By hand: a place where a value may end then has one call to prove, and not the drop of each
/// field.
impl Drop for BooleanValues {
    fn drop(self) {
        let BooleanValues {
            dtype: _,
            values: _,
            alloc: _,
        } = self;
    }
}

impl Model for BooleanValues {
    ghost use Rattle.std.specs.Prelude.{◌≡◌, Bool, Some};
    ghost use Rattle.std.specs.Coded.{codes};
    ghost use Rattle.arrow_types.specs.Seen.{seen as type_of};
    ghost use Rattle.arrow_types.specs.Types.{physical_of};
    ghost use Rattle.arrow_types.specs.declared.datatype.PhysicalType.TheVariants as physical;
    ghost use Rattle.arrow_types.specs.contracts.datatype.ArrowDataType as data_type;
    ghost use Rattle.arrow_push.specs.Flat.{TypedValues};

    ghost Value = { TypedValues Bool };

    ghost coded = { Prim.hlevel (codes, data_type.the_row.coded) };

    ghost view = { λ b. record { dtype = b.dtype; values = b.values } };

    ghost invariant = { λ b. physical_of (type_of b.dtype) ≡ Some physical.Boolean };
}

/// A builder of bits and nulls.
pub type MutableBooleanArray = MaskedBuilder<BooleanValues>;

impl Building for BooleanValues {
    ghost use Rattle.arrow_flat.specs.Slots.{bool};
    ghost use Rattle.arrow_push.specs.Flat.{built_of};
    ghost use Rattle.arrow_push.specs.Laws.{flat_starts};

    ghost seen = { built_of bool };

    ghost starts = { flat_starts bool };
}

impl ValuesLaws for BooleanValues {
    ghost use Rattle.std.specs.Prelude.{false, refl};
    ghost use Rattle.arrow_flat.specs.Slots.{bool};
    ghost use Rattle.arrow_push.specs.Laws.{flat_valid};

    ghost blank = { λ t. bool false };

    ghost whole = { λ b. refl };

    ghost plain = { λ b ys. refl };

    ghost valid = { λ b. flat_valid bool (λ x. refl) b.values };
}

impl ValuesBuilder for BooleanValues {
    ghost use Rattle.std.specs.Prelude.{map};
    ghost use Rattle.arrow_types.specs.Seen.{seen as type_of};
    ghost use Rattle.arrow_flat.specs.Booleans.{slots};
    ghost use Rattle.arrow_flat.specs.Slots.{bool};
    ghost use Rattle.arrow_flat.specs.Slots.{slot_or_null};
    ghost use Rattle.arrow_layout.specs.Layouts.{booleans};

    type Array = BooleanArray;

    ghost finished = { λ a. record {
      dtype = type_of a.dtype;
      slots = map (slot_or_null bool) (slots a);
      validity = a.mask;
    } };

    ghost layout = { λ a. booleans (type_of a.dtype) a.mask a.values };

    fn dtype(&self) -> &ArrowDataType {
        &self.dtype
    }

    fn len(&self) -> usize {
        self.values.len()
    }

    fn allocator(&self) -> Global {
        self.alloc
    }

    fn push_blank(&mut self) -> Mem<()> {
        self.values.push(false)
    }

    fn extend_values(&mut self, other: &BooleanValues) -> PolarsResult<()> {
        self.values.reserve(other.values.len())?;
        push_bits(&mut self.values, &other.values)?;
        Ok(())
    }

    fn truncate(&mut self, len: usize) {
        self.values.truncate(len);
    }

    fn reserve(&mut self, additional: usize) -> Mem<()> {
        self.values.reserve(additional)
    }

    fn shrink_to_fit(&mut self) -> Mem<()> {
        self.values.shrink_to_fit();
        Ok(())
    }

    fn finish_under(&mut self, validity: Option<Bitmap>) -> Mem<BooleanArray> {
        let values = std::mem::replace(&mut self.values, MutableBitmap::new(self.alloc));
        let dtype = self.dtype.try_clone(self.alloc)?;
        let values = values.freeze()?;
        Ok(BooleanArray::new(dtype, values, validity))
    }
}

impl TryClone for BooleanValues {
    fn try_clone(&self, alloc: Global) -> Mem<BooleanValues> {
        let values = self.values.try_clone(alloc)?;
        let dtype = self.dtype.try_clone(alloc)?;
        Ok(BooleanValues {
            dtype,
            values,
            alloc,
        })
    }
}

impl FreshValues for BooleanValues {
    ghost use Rattle.arrow_types.specs.TypeData.{boolean};

    ghost plain_type = { boolean };

    fn fresh(alloc: Global) -> Mem<BooleanValues> {
        Ok(BooleanValues {
            dtype: ArrowDataType::Boolean,
            values: MutableBitmap::new(alloc),
            alloc,
        })
    }
}

impl TryPush<bool> for BooleanValues {
    ghost use Rattle.std.specs.Prelude.{◌≡◌, ⊤};
    ghost use Rattle.arrow_flat.specs.Slots.{bool};

    ghost can_take = { λ x. ⊤ };

    ghost stands_for = { λ x y. y ≡ bool x };

    ghost begins = { λ x y. y ≡ bool x };

    fn try_push(&mut self, item: bool) -> PolarsResult<()> {
        self.values.push(item)?;
        Ok(())
    }
}

impl SolidValues<bool> for BooleanValues {
    ghost use Rattle.std.proofs.Common.{ap};
    ghost use Rattle.arrow_flat.specs.Slots.{is_valid};

    ghost solid = { λ x y e. ap is_valid e };

    ghost solid_begun = { λ x y e. ap is_valid e };
}
