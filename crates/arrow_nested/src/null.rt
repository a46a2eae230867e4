//! Arrays of nulls, and the builder of one.
ghost use Rattle.std.specs.Prelude.{ℕ, ◌≡◌, ◌≤◌, Some, [], ◌∷◌, IfOk, MatchResult};
ghost use Rattle.arrow_flat.specs.Built.{IsCutTo, Pushes};
ghost use Rattle.arrow_flat.specs.Slots.{null};
ghost use Rattle.arrow_layout.specs.Layouts.{nulls};
ghost use Rattle.arrow_layout.specs.WellFormed.{WellFormed};
ghost use Rattle.arrow_meaning.specs.Nodes.{IsStoredAs};
ghost use Rattle.arrow_nested.specs.Nulls.{NullRefused, nulls_built};
ghost use Rattle.arrow_types.specs.Seen.{seen};
ghost use Rattle.arrow_types.specs.TypeData.{TypeData};
ghost use Rattle.arrow_types.specs.Types.{physical_of};
ghost use Rattle.arrow_types.specs.declared.datatype.PhysicalType.TheVariants as physical;

use arrow_flat::stored::is_stored_in;
use arrow_flat::{Building, Splitable, TryClone};
use arrow_meaning::{ArrayRef, Node, TypedArray, copy_of, halves_of};
use arrow_types::{ArrowDataType, Mem, PhysicalType, PolarsError, PolarsResult, Reason};
use std::alloc::Global;
use std::marker::Model;

/// An array of nulls, seen as its layout.
///
/// The Arrow Columnar Format's null layout, which has no buffers.
pub struct NullArray {
    array: ArrayRef,
}

/// By hand: a place where a value may end then has one call to prove, and not the drop of each
/// field.
impl Drop for NullArray {
    fn drop(self) {
        let NullArray { array: _ } = self;
    }
}

impl Model for NullArray {
    ghost use Rattle.arrow_layout.specs.Layouts.{Layout};
    ghost use Rattle.arrow_layout.specs.LayoutCode.{layout_code};
    ghost use Rattle.arrow_meaning.specs.Nodes.{IsStoredAs};
    ghost use Rattle.arrow_types.specs.declared.datatype.PhysicalType.TheVariants as physical;

    ghost Value = { Layout };

    ghost coded = { layout_code };

    ghost view = { λ a. a.array };

    ghost invariant = { λ a. IsStoredAs physical.Null a.array };
}

impl NullArray {
    /// The array of `length` nulls. Refused as ComputeError(WrongLogicalType) where the type
    /// without outer extensions isn't Null, and when out of memory.
    pub fn try_new(alloc: Global, dtype: ArrowDataType, length: usize) -> PolarsResult<NullArray>
        ensures accepted { MatchResult result
            (λ a. a ≡ nulls (seen dtype) length)
            (λ e. NullRefused e (nulls (seen dtype) length)) }
        ensures well_formed { IfOk result (λ a. WellFormed a) }
    {
        if !is_stored_in(&dtype, PhysicalType::Null) {
            return Err(PolarsError::ComputeError(Reason::WrongLogicalType));
        }
        Ok(NullArray::new(alloc, dtype, length)?)
    }

    /// The array of `length` nulls of a type that is Null without outer extensions.
    pub fn new(alloc: Global, dtype: ArrowDataType, length: usize) -> Mem<NullArray>
        requires { physical_of (seen dtype) ≡ Some physical.Null }
        ensures same { IfOk result (λ a. a ≡ nulls (seen dtype) length) }
        ensures well_formed { IfOk result (λ a. WellFormed a) }
    {
        let array = ArrayRef::from_node(alloc, Node::Null { dtype, length })?;
        array.invariant();
        Ok(NullArray { array })
    }
}

/// Law of null arrays, whose body does nothing: each well-formed layout of them passes the test of
/// `NullArray::try_new`.
pub fn nulls_are_accepted()
    ensures { (t : TypeData) (n : ℕ) → WellFormed (nulls t n)
        → IsStoredAs physical.Null (nulls t n) }
{}

impl TypedArray for NullArray {
    ghost layout = { λ a. a };

    ghost physical = { physical.Null };

    fn from_array(array: ArrayRef) -> Result<NullArray, ArrayRef> {
        if is_stored_in(array.dtype(), PhysicalType::Null) {
            Ok(NullArray { array })
        } else {
            Err(array)
        }
    }

    fn boxed(self) -> ArrayRef {
        let NullArray { array } = self;
        array
    }

    fn as_ref_array(&self) -> &ArrayRef {
        &self.array
    }
}

impl TryClone for NullArray {
    fn try_clone(&self, alloc: Global) -> Mem<NullArray> {
        copy_of(alloc, self)
    }
}

impl Splitable for NullArray {
    ghost use Rattle.std.specs.Prelude.{◌≤◌, ◌-◌};
    ghost use Rattle.arrow_layout.specs.Cut.{cut};
    ghost use Rattle.arrow_layout.specs.Layouts.{length_of};

    ghost HasBound = { λ a n. n ≤ length_of a };

    ghost front = { λ a n. cut a 0 n };

    ghost rest = { λ a n. cut a n (length_of a - n) };

    fn check_bound(&self, offset: usize) -> bool {
        offset <= self.len()
    }

    fn split_at(&self, alloc: Global, offset: usize) -> Mem<(NullArray, NullArray)> {
        halves_of(alloc, self, offset)
    }
}

/// A builder of an array of nulls, seen as its type and the count of its slots.
pub struct MutableNullArray {
    dtype: ArrowDataType,
    length: usize,
    alloc: Global,
}

/// By hand: a place where a value may end then has one call to prove, and not the drop of each
/// field.
impl Drop for MutableNullArray {
    fn drop(self) {
        let MutableNullArray {
            dtype: _,
            length: _,
            alloc: _,
        } = self;
    }
}

impl Model for MutableNullArray {
    ghost use Rattle.std.specs.Prelude.{◌≡◌, ◌^◌, ◌<◌, Some};
    ghost use Rattle.std.specs.Coded.{codes};
    ghost use Rattle.arrow_nested.specs.Nulls.{Nulls};
    ghost use Rattle.arrow_types.specs.Seen.{seen};
    ghost use Rattle.arrow_types.specs.Types.{physical_of};
    ghost use Rattle.arrow_types.specs.contracts.datatype.ArrowDataType as data_type;
    ghost use Rattle.arrow_types.specs.declared.datatype.PhysicalType.TheVariants as physical;

    ghost Value = { Nulls };

    ghost coded = { Prim.hlevel (codes, data_type.the_row.coded) };

    ghost view = { λ b. record { dtype = b.dtype; length = b.length } };

    ghost invariant = { λ b. physical_of (seen b.dtype) ≡ Some physical.Null };
}

impl MutableNullArray {
    /// A builder that begins with `length` nulls, of a type that is Null without outer extensions.
    /// Takes no memory.
    pub fn new(alloc: Global, dtype: ArrowDataType, length: usize) -> MutableNullArray
        requires { physical_of (seen dtype) ≡ Some physical.Null }
        ensures { result ≡ record { dtype = dtype; length = length } }
    {
        MutableNullArray {
            dtype,
            length,
            alloc,
        }
    }

    /// The whole type, extensions included.
    pub fn dtype(&self) -> &ArrowDataType
        ensures { result.now ≡ self.now.dtype }
    {
        &self.dtype
    }

    /// The count of slots.
    pub fn len(&self) -> usize
        ensures { result ≡ self.now.length }
    {
        self.length
    }

    /// The memory that the array will be made in.
    pub fn allocator(&self) -> Global {
        self.alloc
    }

    /// Appends a null. Refused as ComputeError(LengthOverflow) exactly where there are as many as
    /// a usize counts; a refusal leaves the builder. Takes no memory.
    pub fn push_null(&mut self) -> PolarsResult<()>
        ensures { Pushes (λ y. y ≡ null) (λ y. y ≡ null)
            (nulls_built self.old) (nulls_built self.new) result }
    {
        let Some(length) = self.length.checked_add(1) else {
            return Err(PolarsError::ComputeError(Reason::LengthOverflow));
        };
        self.length = length;
        Ok(())
    }

    /// Keeps the first `len` slots. Takes no memory.
    pub fn truncate(&mut self, len: usize)
        requires { len ≤ self.old.length }
        ensures { IsCutTo len (nulls_built self.old) (nulls_built self.new) }
    {
        self.length = len;
    }

    /// The array of the builder's slots.
    pub fn into_array(self) -> Mem<NullArray>
        ensures { IfOk result (λ a. a ≡ nulls (seen self.dtype) self.length) }
    {
        let MutableNullArray {
            dtype,
            length,
            alloc,
        } = self;
        NullArray::new(alloc, dtype, length)
    }
}

impl Building for MutableNullArray {
    ghost use Rattle.arrow_nested.specs.NullLaws.{nulls_start};

    ghost seen = { nulls_built };

    ghost starts = { nulls_start };
}

impl TryClone for MutableNullArray {
    fn try_clone(&self, alloc: Global) -> Mem<MutableNullArray> {
        Ok(MutableNullArray {
            dtype: self.dtype.try_clone(alloc)?,
            length: self.length,
            alloc: self.alloc,
        })
    }
}
