ghost use Rattle.std.specs.Prelude.{◌≡◌};
ghost use Rattle.arrow_types.specs.Seen.{seen, seen_fields};
ghost use Rattle.arrow_types.specs.Types.{contains_dictionary, any_dictionary};

use crate::datatype::{ArrowDataType, Field};

impl ArrowDataType {
    /// Whether a dictionary stands in the type at any depth.
    #[cycle(dictionary)]
    pub fn contains_dictionary(&self) -> bool
        ensures { result ≡ contains_dictionary (seen self.now) }
    {
        match self {
            ArrowDataType::List(field)
            | ArrowDataType::LargeList(field)
            | ArrowDataType::FixedSizeList(field, _)
            | ArrowDataType::Map(field, _) => field.get().dtype.contains_dictionary(),
            ArrowDataType::Struct(fields) => any_dictionary(fields.as_slice()),
            ArrowDataType::Union(union) => any_dictionary(union.get().fields.as_slice()),
            ArrowDataType::Dictionary(_, _, _) => true,
            ArrowDataType::Extension(extension) => extension.get().inner.contains_dictionary(),
            _ => false,
        }
    }
}

#[cycle(dictionary)]
fn any_dictionary(fields: &[Field]) -> bool
    ensures { result ≡ any_dictionary (seen_fields fields.now) }
{
    for field in fields {
        if field.dtype.contains_dictionary() {
            return true;
        }
    }
    false
}
