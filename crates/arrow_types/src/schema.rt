ghost use Rattle.std.specs.Prelude.{◌≡◌, ◌↔◌, IsTrue, IfOk};
ghost use Rattle.std.specs.Cmp.{partial_equiv_from_equiv, on_equiv, decided};
ghost use Rattle.std.specs.Hash.{on_Alike, same_Alike};
ghost use Rattle.arrow_types.specs.Schema.{seen_schema};
ghost use Rattle.arrow_types.specs.TypeEq.{fields_eq};
ghost use Rattle.arrow_types.specs.TypeExact.{field_lists_decide};
ghost use Rattle.arrow_types.specs.TypeWrites.{fields_writes};

use crate::copy::clone_fields;
use crate::datatype::Fields;
use crate::error::Mem;
use crate::hashing::hash_fields;
use crate::same::are_same_fields;
use std::alloc::Global;
use std::hash::{Hash, Hasher};
use std::rc::Rc;

/// The fields of a table, in order.
#[derive(Debug, Drop)]
pub struct ArrowSchema {
    pub fields: Fields,
}

/// A shared schema.
pub type SchemaRef = Rc<ArrowSchema>;

/// A shared schema.
pub type ArrowSchemaRef = Rc<ArrowSchema>;

impl ArrowSchema {
    /// An equal schema, which shares the texts.
    pub fn try_clone(&self, alloc: Global) -> Mem<ArrowSchema>
        ensures { IfOk result (λ s. s ≡ self.now) }
    {
        Ok(ArrowSchema {
            fields: clone_fields(alloc, self.fields.as_slice())?,
        })
    }
}

/// Whether two schemas are equal in all parts of their fields.
pub fn is_same_schema(a: &ArrowSchema, b: &ArrowSchema) -> bool
    ensures { IsTrue result ↔ (a.now ≡ b.now) }
{
    are_same_fields(a.fields.as_slice(), b.fields.as_slice())
}

impl PartialEq for ArrowSchema {
    ghost eq = { λ a b. fields_eq (seen_schema a) (seen_schema b) };

    ghost laws = { partial_equiv_from_equiv
        (on_equiv seen_schema (decided fields_eq field_lists_decide)) };

    fn eq(&self, other: &ArrowSchema) -> bool {
        is_same_schema(self, other)
    }
}

impl Eq for ArrowSchema {
    ghost laws = { on_equiv seen_schema (decided fields_eq field_lists_decide) };
}

impl Hash for ArrowSchema {
    ghost hash_input = { λ a. fields_writes (seen_schema a) };

    ghost respects_eq = { (on_Alike
        seen_schema
        (same_Alike fields_writes field_lists_decide)).fed };

    fn hash<H: Hasher>(&self, state: &mut H) {
        hash_fields(self.fields.as_slice(), state);
    }
}
