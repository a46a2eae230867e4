//! The builder of binary values and of strings by offsets.
ghost use Rattle.std.specs.Prelude.{◌≡◌, ◌∷◌, [], Some};
ghost use Rattle.arrow_types.specs.Seen.{seen as type_of};
ghost use Rattle.arrow_types.specs.Types.{physical_of};
ghost use Rattle.arrow_flat.specs.Built.{Pushes};
ghost use Rattle.arrow_views.specs.ViewArrays.{AreTextsIf};
ghost use Rattle.arrow_flat.specs.Slots.{bytes};
ghost use Rattle.arrow_bytes.specs.Binaries.{layout_in};
ghost use Rattle.arrow_push_bytes.specs.BuiltOffsets.{built_offsets, plain_offset_type};

use crate::ByteStrings;
use arrow_buffers::{Bitmap, Offset};
use arrow_bytes::OffsetArray;
use arrow_flat::{Building, TryClone, ViewBytes, ViewStr, ViewType};
use arrow_push::{
    FreshValues, MaskedBuilder, ReserveBytes, TryExtendFromSelf, ValuesBuilder, ValuesLaws,
};
use arrow_types::{ArrowDataType, Mem, PolarsResult};
use std::alloc::{AllocError, Global};
use std::marker::{Model, PhantomData};

/// A builder of binary values or of strings, without nulls, seen as its type and the bytes of each
/// value.
pub struct OffsetValues<K: ViewType, O: Offset> {
    dtype: ArrowDataType,
    strings: ByteStrings<O>,
    kind: PhantomData<K>,
}

/// A builder of binary values, without nulls.
pub type MutableBinaryValuesArray<O> = OffsetValues<ViewBytes, O>;

/// A builder of strings, without nulls.
pub type MutableUtf8ValuesArray<O> = OffsetValues<ViewStr, O>;

/// A builder of binary values and nulls.
pub type MutableBinaryArray<O> = MaskedBuilder<OffsetValues<ViewBytes, O>>;

/// A builder of strings and nulls.
pub type MutableUtf8Array<O> = MaskedBuilder<OffsetValues<ViewStr, O>>;

/// By hand: a place where a value may end then has one call to prove, and not the drop of each
/// field.
impl<K: ViewType, O: Offset> Drop for OffsetValues<K, O> {
    fn drop(self) {
        let OffsetValues {
            dtype: _,
            strings: _,
            kind: _,
        } = self;
    }
}

impl<K: ViewType, O: Offset> Model for OffsetValues<K, O> {
    ghost use Rattle.std.specs.Coded.{codes};
    ghost use Rattle.arrow_types.specs.contracts.datatype.ArrowDataType as data_type;
    ghost use Rattle.arrow_push_bytes.specs.BuiltStrings.{TypedStrings};
    ghost use Rattle.arrow_push_bytes.specs.BuiltOffsets.{AreOffsetStrings};

    ghost Value = { TypedStrings };

    ghost coded = { Prim.hlevel (codes, data_type.the_row.coded) };

    ghost view = { λ b. record { dtype = b.dtype; strings = b.strings } };

    ghost invariant = { λ b. AreOffsetStrings K.IS_TEXT O.IS_LARGE record {
      dtype = b.dtype;
      strings = b.strings;
    } };
}

impl<K: ViewType, O: Offset> Building for OffsetValues<K, O> {
    ghost use Rattle.std.specs.Prelude.{refl};
    ghost use Rattle.arrow_types.specs.Seen.{seen as type_of};
    ghost use Rattle.arrow_push_bytes.specs.BuiltOffsets.{strings_refusal, built_offsets};
    ghost use Rattle.arrow_push_bytes.specs.Laws.{strings_start};

    ghost seen = { built_offsets O.limit };

    ghost starts = { λ b.
        strings_start (strings_refusal O.limit) (type_of b.dtype) b.strings refl };
}

impl<K: ViewType, O: Offset> OffsetValues<K, O> {
    ghost use Rattle.std.specs.Prelude.{◌≡◌, [], None, IfOk};
    ghost use Rattle.arrow_types.specs.Seen.{seen as type_of};
    ghost use Rattle.arrow_flat.specs.Built.{IsCutTo};
    ghost use Rattle.arrow_push.specs.Arrays.{HoldsValues};
    ghost use Rattle.arrow_push.specs.Masks.{finished_under};
    ghost use Rattle.arrow_push_bytes.specs.BuiltOffsets.{built_offsets, plain_offset_type};
    ghost use Rattle.arrow_push_bytes.specs.BuiltOffsets.{finished_offsets, offset_array_layout};

    /// No values yet, of the plain type: Binary or Utf8, or their Large form where the offsets are
    /// large.
    pub fn new(alloc: Global) -> Mem<OffsetValues<K, O>>
        ensures empty { IfOk result (λ b. b.strings ≡ []) }
        ensures kind { IfOk result (λ b. type_of b.dtype ≡ plain_offset_type K.IS_TEXT O.IS_LARGE) }
    {
        let strings = ByteStrings::new(alloc)?;
        Ok(OffsetValues {
            dtype: plain_type(K::IS_TEXT, O::IS_LARGE),
            strings,
            kind: PhantomData,
        })
    }

    /// The array of the values. The builder is left empty, where memory is short too.
    pub fn finish(&mut self) -> Mem<OffsetArray<K, O>>
        ensures value { IfOk result (λ a. finished_offsets O.number a
            ≡ finished_under None (built_offsets O.limit self.old)) }
        ensures held { IfOk result (λ a. HoldsValues None
            (built_offsets O.limit self.old) (offset_array_layout O.number a)) }
        ensures emptied { IsCutTo 0
            (built_offsets O.limit self.old) (built_offsets O.limit self.new) }
    {
        self.finish_under(None)
    }

    /// Appends a value. Refused as ComputeError LengthOverflow where the bytes of all values pass
    /// the greatest offset. A refused call changes nothing.
    pub(crate) fn push_bytes(&mut self, value: &[u8]) -> PolarsResult<()>
        requires { AreTextsIf K.IS_TEXT (value.now ∷ []) }
        ensures { Pushes (λ y. y ≡ bytes value.now) (λ y. y ≡ bytes value.now)
            (built_offsets O.limit self.old) (built_offsets O.limit self.new) result }
    {
        self.strings.try_push(value)
    }
}

impl<K: ViewType, O: Offset> ValuesLaws for OffsetValues<K, O> {
    ghost use Rattle.std.specs.Prelude.{[], refl};
    ghost use Rattle.arrow_flat.specs.Slots.{bytes};
    ghost use Rattle.arrow_push_bytes.specs.Laws.{strings_valid};

    ghost blank = { λ t. bytes [] };

    ghost whole = { λ b. refl };

    ghost plain = { λ b ys. refl };

    ghost valid = { λ b. strings_valid b.strings };
}

impl<K: ViewType, O: Offset> ValuesBuilder for OffsetValues<K, O> {
    ghost use Rattle.arrow_push_bytes.specs.BuiltOffsets.{finished_offsets, offset_array_layout};

    type Array = OffsetArray<K, O>;

    ghost finished = { finished_offsets O.number };

    ghost layout = { offset_array_layout O.number };

    fn dtype(&self) -> &ArrowDataType {
        &self.dtype
    }

    fn len(&self) -> usize {
        self.strings.len()
    }

    fn allocator(&self) -> Global {
        self.strings.allocator()
    }

    fn push_blank(&mut self) -> Mem<()> {
        if let Err(_) = self.strings.try_push(&[]) {
            return Err(AllocError);
        }
        Ok(())
    }

    fn extend_values(&mut self, other: &OffsetValues<K, O>) -> PolarsResult<()> {
        self.strings.try_extend(&other.strings)
    }

    fn truncate(&mut self, len: usize) {
        self.strings.truncate(len);
    }

    fn reserve(&mut self, additional: usize) -> Mem<()> {
        self.strings.reserve(additional)
    }

    fn shrink_to_fit(&mut self) -> Mem<()> {
        self.strings.shrink_to_fit();
        Ok(())
    }

    fn finish_under(&mut self, validity: Option<Bitmap>) -> Mem<OffsetArray<K, O>> {
        let alloc = self.strings.allocator();
        let (offsets, values) = self.strings.finish()?;
        let dtype = self.dtype.try_clone(alloc)?;
        Ok(OffsetArray::new(dtype, offsets, values, validity))
    }
}

impl<K: ViewType, O: Offset> ReserveBytes for OffsetValues<K, O> {
    fn reserve_bytes(&mut self, additional: usize, bytes: usize) -> Mem<()> {
        self.strings.reserve_bytes(additional, bytes)
    }
}

impl<K: ViewType, O: Offset> TryClone for OffsetValues<K, O> {
    fn try_clone(&self, alloc: Global) -> Mem<OffsetValues<K, O>> {
        let strings = self.strings.try_clone(alloc)?;
        let dtype = self.dtype.try_clone(alloc)?;
        Ok(OffsetValues {
            dtype,
            strings,
            kind: PhantomData,
        })
    }
}

impl<K: ViewType, O: Offset> FreshValues for OffsetValues<K, O> {
    ghost use Rattle.arrow_push_bytes.specs.BuiltOffsets.{plain_offset_type};

    ghost plain_type = { plain_offset_type K.IS_TEXT O.IS_LARGE };

    fn fresh(alloc: Global) -> Mem<OffsetValues<K, O>> {
        OffsetValues::new(alloc)
    }
}

impl<K: ViewType, O: Offset> TryExtendFromSelf for OffsetValues<K, O> {
    ghost use Rattle.std.specs.Prelude.{⊤, map};
    ghost use Rattle.arrow_flat.specs.Slots.{bytes};
    ghost use Rattle.arrow_push_bytes.specs.BuiltOffsets.{strings_refusal};

    ghost from_refusal = { λ a b. strings_refusal O.limit a.strings (map bytes b.strings) };

    ghost Bare = { λ b. ⊤ };

    fn try_extend_from_self(&mut self, other: &OffsetValues<K, O>) -> PolarsResult<()> {
        self.extend_values(other)
    }
}

/// The plain type of strings or of binary values, with large offsets or with others.
#[tactic(auto, using(arrow_flat::proofs::TypeViews::seen_types))]
fn plain_type(is_text: bool, is_large: bool) -> ArrowDataType
    ensures plain { type_of result ≡ plain_offset_type is_text is_large }
    ensures stored { physical_of (type_of result) ≡ Some (layout_in is_text is_large) }
{
    match (is_text, is_large) {
        (true, true) => ArrowDataType::LargeUtf8,
        (true, false) => ArrowDataType::Utf8,
        (false, true) => ArrowDataType::LargeBinary,
        (false, false) => ArrowDataType::Binary,
    }
}
