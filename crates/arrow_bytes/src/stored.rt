//! Which layout a type's columns are stored in.
ghost use Rattle.std.specs.Prelude.{◌≡◌, ◌↔◌, Some, IsTrue};
ghost use Rattle.arrow_types.specs.Seen.{seen};
ghost use Rattle.arrow_types.specs.Types.{physical_of};
ghost use Rattle.arrow_bytes.specs.Binaries.{layout_in};

use arrow_types::{ArrowDataType, PhysicalType};

/// Whether the type is stored as strings or as binary values, with large offsets or with others.
pub(crate) fn is_stored_as(dtype: &ArrowDataType, is_text: bool, is_large: bool) -> bool
    ensures { IsTrue result ↔ (physical_of (seen dtype.now) ≡ Some (layout_in is_text is_large)) }
{
    match dtype.to_physical_type() {
        Some(PhysicalType::Binary) => !is_text && !is_large,
        Some(PhysicalType::LargeBinary) => !is_text && is_large,
        Some(PhysicalType::Utf8) => is_text && !is_large,
        Some(PhysicalType::LargeUtf8) => is_text && is_large,
        _ => false,
    }
}
