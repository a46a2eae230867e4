ghost use Rattle.std.specs.Prelude.{◌≡◌, None, IfOk, codes};
ghost use Rattle.arrow_types.specs.Metadata.{has_key, with_metadata};

use crate::datatype::{ArrowDataType, Field};
use crate::error::Mem;
use crate::metadata::{Metadata, SharedMetadata, value_of};
use crate::text::PlSmallStr;
use std::alloc::Global;

/// The key of the values of an enum.
pub const DTYPE_ENUM_VALUES: &str = "_PL_ENUM_VALUES";

/// The key that marks categories.
pub const DTYPE_CATEGORICAL: &str = "_PL_CATEGORICAL";

impl Field {
    /// A field without metadata.
    pub fn new(name: PlSmallStr, dtype: ArrowDataType, is_nullable: bool) -> Field
        ensures { result ≡ record {
          name = name;
          dtype = dtype;
          is_nullable = is_nullable;
          metadata = None;
        } }
    {
        Field {
            name,
            dtype,
            is_nullable,
            metadata: None,
        }
    }

    /// The field with that metadata; unchanged where the map is empty.
    pub fn with_metadata(self, alloc: Global, metadata: Metadata) -> Mem<Field>
        ensures { IfOk result (λ f. f ≡ with_metadata self metadata.entries) }
    {
        if metadata.is_empty() {
            return Ok(self);
        }
        let Field {
            name,
            dtype,
            is_nullable,
            metadata: _,
        } = self;
        Ok(Field {
            name,
            dtype,
            is_nullable,
            metadata: Some(SharedMetadata::new(alloc, metadata)?),
        })
    }

    /// Its type.
    pub fn dtype(&self) -> &ArrowDataType
        ensures { result.now ≡ self.now.dtype }
    {
        &self.dtype
    }

    /// Whether the metadata has the key of the values of an enum.
    pub fn is_enum(&self) -> bool
        ensures { result ≡ has_key (codes "_PL_ENUM_VALUES") self.now.metadata }
    {
        has_key(&self.metadata, DTYPE_ENUM_VALUES)
    }

    /// Whether the metadata has the key that marks categories.
    pub fn is_categorical(&self) -> bool
        ensures { result ≡ has_key (codes "_PL_CATEGORICAL") self.now.metadata }
    {
        has_key(&self.metadata, DTYPE_CATEGORICAL)
    }

    /// Its name and the field itself.
    pub fn try_pair(self, alloc: Global) -> Mem<(PlSmallStr, Field)>
        ensures { IfOk result (λ p. p ≡ (self.name, self)) }
    {
        let name = self.name.try_clone(alloc)?;
        Ok((name, self))
    }
}

fn has_key(metadata: &Option<SharedMetadata>, key: &str) -> bool
    ensures { result ≡ has_key key.now metadata.now }
{
    match metadata {
        Some(shared) => value_of(shared.get(), key).is_some(),
        None => false,
    }
}
