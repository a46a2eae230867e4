//! The growable of nulls.
ghost use Rattle.std.specs.Prelude.{◌≡◌, true, false, Some};
ghost use Rattle.arrow_types.specs.Seen.{seen as type_of};
ghost use Rattle.arrow_types.specs.Types.{physical_of};
ghost use Rattle.arrow_types.specs.declared.datatype.PhysicalType.TheVariants as physical;
ghost use Rattle.arrow_grow_flat.specs.Grown.{Boxes, Grows, IsSound, nulls_by};
ghost use Rattle.arrow_grow_flat.specs.Nulls.{fresh_nulls};

use crate::Growable;
use arrow_meaning::{ArrayRef, TypedArray};
use arrow_nested::NullArray;
use arrow_types::{ArrowDataType, GrowError, Mem};
use std::alloc::Global;
use std::marker::Model;

/// A growable of nulls, seen as its type and its list of slots. It keeps no array: its sources are
/// usize::MAX arrays of usize::MAX nulls each.
pub struct GrowableNull {
    alloc: Global,
    dtype: ArrowDataType,
    length: usize,
    failed: bool,
}

/// By hand: where a value may end there is one call to prove then, not the drop of each field.
impl Drop for GrowableNull {
    fn drop(self) {
        let GrowableNull {
            alloc: _,
            dtype: _,
            length: _,
            failed: _,
        } = self;
    }
}

impl Model for GrowableNull {
    ghost use Rattle.arrow_types.specs.Seen.{seen as type_of};
    ghost use Rattle.arrow_grow_flat.specs.Grown.{Grown, grown_code};
    ghost use Rattle.arrow_grow_flat.specs.Nulls.{AreNulls, null_grown};

    ghost Value = { Grown };

    ghost coded = { grown_code };

    ghost view = { λ g. null_grown (type_of g.dtype) g.length g.failed };

    ghost invariant = { λ g. AreNulls (type_of g.dtype) g.length };
}

impl GrowableNull {
    /// No slots yet, of a type whose layout is Null. Takes no memory.
    pub fn new(alloc: Global, dtype: ArrowDataType) -> GrowableNull
        requires { physical_of (type_of dtype) ≡ Some physical.Null }
        ensures { result ≡ fresh_nulls (type_of dtype) }
    {
        GrowableNull {
            alloc,
            dtype,
            length: 0,
            failed: false,
        }
    }

    /// For proofs alone: what the growable keeps.
    pub fn sound(&self)
        ensures sound { IsSound self.now }
        ensures stored { physical_of self.now.dtype ≡ Some physical.Null }
        ensures nulls { self.now.takes_nulls ≡ true }
    {
        let _ = &self.dtype;
    }

    /// Appends nulls; Overflow exactly where a usize doesn't hold their count.
    fn grow(&mut self, additional: usize) -> Result<(), GrowError>
        requires { self.old.failed ≡ false }
        ensures { Grows self.old (nulls_by additional) self.new result }
    {
        let Some(length) = self.length.checked_add(additional) else {
            self.failed = true;
            return Err(GrowError::Overflow);
        };
        self.length = length;
        Ok(())
    }

    /// The array of the list, which is empty afterwards. A refused call leaves the growable failed.
    pub fn to(&mut self) -> Mem<NullArray>
        requires { self.old.failed ≡ false }
        ensures { Boxes (λ l. l) self.old self.new result }
    {
        self.failed = true;
        let dtype = self.dtype.try_clone(self.alloc)?;
        let array = NullArray::new(self.alloc, dtype, self.length)?;
        self.length = 0;
        self.failed = false;
        Ok(array)
    }
}

impl Growable for GrowableNull {
    ghost seen = { λ g. g };

    fn invariant(&self) {
        self.sound();
    }

    fn array_count(&self) -> usize {
        self.sound();
        usize::MAX
    }

    fn array_len(&self, _index: usize) -> usize {
        self.sound();
        usize::MAX
    }

    fn len(&self) -> usize {
        self.length
    }

    fn takes_nulls(&self) -> bool {
        self.sound();
        true
    }

    fn is_failed(&self) -> bool {
        self.failed
    }

    fn extend(&mut self, _index: usize, _start: usize, len: usize) -> Result<(), GrowError> {
        self.sound();
        self.grow(len)
    }

    /// Walks over no slot.
    fn extend_copies(
        &mut self,
        _index: usize,
        _start: usize,
        len: usize,
        copies: usize,
    ) -> Result<(), GrowError> {
        self.sound();
        let Some(additional) = len.checked_mul(copies) else {
            self.failed = true;
            return Err(GrowError::Overflow);
        };
        self.grow(additional)
    }

    fn extend_validity(&mut self, additional: usize) -> Result<(), GrowError> {
        self.sound();
        self.grow(additional)
    }

    fn as_box(&mut self) -> Mem<ArrayRef> {
        Ok(self.to()?.boxed())
    }
}
