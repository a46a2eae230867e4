//! The builder of binary values and of strings by views.
ghost use Rattle.std.specs.Prelude.{◌≡◌, ◌↔◌, ◌+◌, ◌∷◌, [], ◌≤◌, Some, IsTrue};
ghost use Rattle.arrow_types.specs.Seen.{seen as type_of};
ghost use Rattle.arrow_types.specs.Types.{physical_of};
ghost use Rattle.arrow_flat.specs.Built.{Pushes};
ghost use Rattle.arrow_views.specs.ViewArrays.{AreTextsIf};
ghost use Rattle.arrow_flat.specs.Slots.{bytes};
ghost use Rattle.arrow_views.specs.ViewArrays.{physical_view};
ghost use Rattle.arrow_push_bytes.specs.Strings.{total_of};
ghost use Rattle.arrow_push_bytes.specs.BuiltViews.{most_bytes, has_room, built_views, plain_view_type};

use crate::ByteStrings;
use crate::packed::packed_array;
use arrow_buffers::Bitmap;
use arrow_flat::{AccessIter, Building, ByteString, TryClone, ViewStr, ViewType};
use arrow_push::{
    FreshValues, MaskedBuilder, ReserveBytes, SolidValues, TryPush, ValuesBuilder, ValuesLaws,
};
use arrow_types::{ArrowDataType, Mem, PolarsError, PolarsResult, Reason};
use arrow_views::BinaryViewArrayGeneric;
use std::alloc::{AllocError, Global};
use std::marker::{Model, PhantomData};

/// The most bytes that the values have together.
const MOST_BYTES: usize = 1 << 62;

/// A builder of binary values or of strings, without nulls, of which an array of views is made,
/// seen as its type and the values.
pub struct ViewValues<T: ViewType> {
    dtype: ArrowDataType,
    strings: ByteStrings<i64>,
    kind: PhantomData<T>,
}

/// By hand: a place where a value may end then has one call to prove, and not the drop of each
/// field.
impl<T: ViewType> Drop for ViewValues<T> {
    fn drop(self) {
        let ViewValues {
            dtype: _,
            strings: _,
            kind: _,
        } = self;
    }
}

/// A builder of binary values or of strings and nulls, of which an array of views is made.
pub type MutableBinaryViewArray<T> = MaskedBuilder<ViewValues<T>>;

impl<T: ViewType> Model for ViewValues<T> {
    ghost use Rattle.std.specs.Coded.{codes};
    ghost use Rattle.arrow_types.specs.contracts.datatype.ArrowDataType as data_type;
    ghost use Rattle.arrow_push_bytes.specs.BuiltStrings.{TypedStrings};
    ghost use Rattle.arrow_push_bytes.specs.BuiltViews.{AreViewStrings};

    ghost Value = { TypedStrings };

    ghost coded = { Prim.hlevel (codes, data_type.the_row.coded) };

    ghost view = { λ b. record { dtype = b.dtype; strings = b.strings } };

    ghost invariant = { λ b. AreViewStrings T.IS_TEXT record {
      dtype = b.dtype;
      strings = b.strings;
    } };
}

impl<T: ViewType> ViewValues<T> {
    /// Each value in order, no bytes for a null, from both ends.
    pub fn values_iter(&self) -> AccessIter<&ByteStrings<i64>, &[u8], ByteString>
        ensures { result ≡ self.now.strings }
    {
        AccessIter::over(&self.strings)
    }

    /// Whether values of `more` bytes together may follow, as far as their sum goes.
    pub(crate) fn has_room_for(&self, more: usize) -> bool
        ensures value { IsTrue result ↔ (total_of self.now.strings + more ≤ most_bytes) }
        ensures few { total_of self.now.strings ≤ most_bytes }
    {
        more <= MOST_BYTES - self.strings.total()
    }

    /// Appends a value. Refused as ComputeError LengthOverflow where it has more than 2^32 - 1
    /// bytes, or all together more than 2^62. A refused call changes nothing.
    fn push_bytes(&mut self, value: &[u8]) -> PolarsResult<()>
        requires { AreTextsIf T.IS_TEXT (value.now ∷ []) }
        ensures { Pushes (λ y. y ≡ bytes value.now) (λ y. y ≡ bytes value.now)
            (built_views self.old) (built_views self.new) result }
    {
        if !fits_after(self.strings.total(), value.len()) {
            return Err(PolarsError::ComputeError(Reason::LengthOverflow));
        }
        self.strings.try_push(value)
    }
}

impl<T: ViewType> Building for ViewValues<T> {
    ghost use Rattle.arrow_push_bytes.specs.BuiltViews.{built_views};
    ghost use Rattle.arrow_push_bytes.specs.Laws.{views_start};

    ghost seen = { built_views };

    ghost starts = { views_start };
}

impl<T: ViewType> ValuesLaws for ViewValues<T> {
    ghost use Rattle.std.specs.Prelude.{refl, []};
    ghost use Rattle.arrow_flat.specs.Slots.{bytes};
    ghost use Rattle.arrow_push_bytes.specs.Laws.{strings_valid};

    ghost blank = { λ t. bytes [] };

    ghost whole = { λ b. refl };

    ghost plain = { λ b ys. refl };

    ghost valid = { λ b. strings_valid b.strings };
}

impl<T: ViewType> ValuesBuilder for ViewValues<T> {
    ghost use Rattle.arrow_push_bytes.specs.BuiltViews.{finished_views, view_array_layout};

    type Array = BinaryViewArrayGeneric<T>;

    ghost finished = { finished_views };

    ghost layout = { view_array_layout };

    fn dtype(&self) -> &ArrowDataType {
        &self.dtype
    }

    fn len(&self) -> usize {
        self.strings.len()
    }

    fn allocator(&self) -> Global {
        self.strings.allocator()
    }

    fn push_blank(&mut self) -> Mem<()> {
        if let Err(_) = self.strings.try_push(&[]) {
            return Err(AllocError);
        }
        Ok(())
    }

    fn extend_values(&mut self, other: &ViewValues<T>) -> PolarsResult<()> {
        if !self.has_room_for(other.strings.total()) {
            return Err(PolarsError::ComputeError(Reason::LengthOverflow));
        }
        self.strings.try_extend(&other.strings)
    }

    fn truncate(&mut self, len: usize) {
        self.strings.truncate(len);
    }

    fn reserve(&mut self, additional: usize) -> Mem<()> {
        self.strings.reserve(additional)
    }

    fn shrink_to_fit(&mut self) -> Mem<()> {
        self.strings.shrink_to_fit();
        Ok(())
    }

    fn finish_under(&mut self, validity: Option<Bitmap>) -> Mem<BinaryViewArrayGeneric<T>> {
        let alloc = self.strings.allocator();
        let array = packed_array(alloc, &self.dtype, &self.strings, validity);
        self.strings.truncate(0);
        array
    }
}

impl<T: ViewType> ReserveBytes for ViewValues<T> {
    fn reserve_bytes(&mut self, additional: usize, bytes: usize) -> Mem<()> {
        self.strings.reserve_bytes(additional, bytes)
    }
}

impl<T: ViewType> TryClone for ViewValues<T> {
    fn try_clone(&self, alloc: Global) -> Mem<ViewValues<T>> {
        let strings = self.strings.try_clone(alloc)?;
        let dtype = self.dtype.try_clone(alloc)?;
        Ok(ViewValues {
            dtype,
            strings,
            kind: PhantomData,
        })
    }
}

impl<T: ViewType> FreshValues for ViewValues<T> {
    ghost use Rattle.arrow_push_bytes.specs.BuiltViews.{plain_view_type};

    ghost plain_type = { plain_view_type T.IS_TEXT };

    fn fresh(alloc: Global) -> Mem<ViewValues<T>> {
        let strings = ByteStrings::new(alloc)?;
        Ok(ViewValues {
            dtype: plain_type(T::IS_TEXT),
            strings,
            kind: PhantomData,
        })
    }
}

impl<'a, T: ViewType> TryPush<&'a [u8]> for ViewValues<T> {
    ghost use Rattle.std.specs.Prelude.{◌≡◌, ◌∷◌, []};
    ghost use Rattle.arrow_flat.specs.Slots.{bytes};
    ghost use Rattle.arrow_views.specs.ViewArrays.{AreTextsIf};

    ghost can_take = { λ x. AreTextsIf T.IS_TEXT (x.now ∷ []) };

    ghost stands_for = { λ x y. y ≡ bytes x.now };

    ghost begins = { λ x y. y ≡ bytes x.now };

    fn try_push(&mut self, item: &'a [u8]) -> PolarsResult<()> {
        self.push_bytes(item)
    }
}

impl<'a, T: ViewType> SolidValues<&'a [u8]> for ViewValues<T> {
    ghost use Rattle.std.proofs.Common.{ap};
    ghost use Rattle.arrow_flat.specs.Slots.{is_valid};

    ghost solid = { λ x y e. ap is_valid e };

    ghost solid_begun = { λ x y e. ap is_valid e };
}

impl<'a> TryPush<&'a str> for ViewValues<ViewStr> {
    ghost use Rattle.std.specs.Prelude.{◌≡◌, ⊤};
    ghost use Rattle.arrow_flat.specs.Slots.{bytes};

    ghost can_take = { λ x. ⊤ };

    ghost stands_for = { λ x y. y ≡ bytes x.now };

    ghost begins = { λ x y. y ≡ bytes x.now };

    fn try_push(&mut self, item: &'a str) -> PolarsResult<()> {
        self.push_bytes(item.as_bytes())
    }
}

impl<'a> SolidValues<&'a str> for ViewValues<ViewStr> {
    ghost use Rattle.std.proofs.Common.{ap};
    ghost use Rattle.arrow_flat.specs.Slots.{is_valid};

    ghost solid = { λ x y e. ap is_valid e };

    ghost solid_begun = { λ x y e. ap is_valid e };
}

/// Whether a value of `length` bytes may follow values of `total` bytes.
fn fits_after(total: usize, length: usize) -> bool
    requires { total ≤ most_bytes }
    ensures { result ≡ has_room total length }
{
    length <= u32::MAX as usize && length <= MOST_BYTES - total
}

/// The type of values by views, with no meaning beside their bytes.
fn plain_type(is_text: bool) -> ArrowDataType
    ensures plain { type_of result ≡ plain_view_type is_text }
    ensures stored { physical_of (type_of result) ≡ Some (physical_view is_text) }
{
    if is_text {
        ArrowDataType::Utf8View
    } else {
        ArrowDataType::BinaryView
    }
}
