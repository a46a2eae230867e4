//! Canonical arrays of values of fixed width.
ghost use Rattle.std.specs.Prelude.{◌≡◌, ◌↔◌, IsTrue};
ghost use Rattle.arrow_flat.specs.Numbers.{zeros};
ghost use Rattle.arrow_meaning.specs.Nodes.{primitive_node_layout};
ghost use Rattle.arrow_canonical.specs.OwnForm.{HasOwnForm};

use crate::zeros::{ZeroValues, nulls_are_zero};
use arrow_flat::{DaysMs, MonthDayNano, PrimitiveArray};
use arrow_meaning::{FlatNode, NodeNative, PrimitiveNode};

/// A native type whose values are compared with zeros.
pub(crate) trait ZeroNative: NodeNative {
    /// Whether each number of the value is 0.
    fn is_zero(self) -> bool
        ensures { IsTrue result ↔ (Self.parts self ≡ zeros Self.PRIMITIVE) };
}

/// Whether the values are zeros under nulls.
pub(crate) fn primitive_form(array: &PrimitiveNode) -> bool
    ensures { IsTrue result ↔ HasOwnForm (primitive_node_layout array.now) }
{
    match array {
        PrimitiveNode::Int8(array) => nulls_are_zero(array),
        PrimitiveNode::Int16(array) => nulls_are_zero(array),
        PrimitiveNode::Int32(array) => nulls_are_zero(array),
        PrimitiveNode::Int64(array) => nulls_are_zero(array),
        PrimitiveNode::Int128(array) => nulls_are_zero(array),
        PrimitiveNode::UInt8(array) => nulls_are_zero(array),
        PrimitiveNode::UInt16(array) => nulls_are_zero(array),
        PrimitiveNode::UInt32(array) => nulls_are_zero(array),
        PrimitiveNode::UInt64(array) => nulls_are_zero(array),
        PrimitiveNode::DaysMs(array) => nulls_are_zero(array),
        PrimitiveNode::MonthDayNano(array) => nulls_are_zero(array),
    }
}

impl<T: ZeroNative> ZeroValues for PrimitiveArray<T> {
    fn len(&self) -> usize {
        PrimitiveArray::len(self)
    }

    fn is_valid(&self, i: usize) -> bool {
        PrimitiveArray::is_valid(self, i)
    }

    fn is_zero(&self, i: usize) -> bool {
        FlatNode::invariant(self);
        self.value(i).is_zero()
    }
}

impl ZeroNative for i8 {
    fn is_zero(self) -> bool {
        self == 0
    }
}

impl ZeroNative for i16 {
    fn is_zero(self) -> bool {
        self == 0
    }
}

impl ZeroNative for i32 {
    fn is_zero(self) -> bool {
        self == 0
    }
}

impl ZeroNative for i64 {
    fn is_zero(self) -> bool {
        self == 0
    }
}

impl ZeroNative for i128 {
    fn is_zero(self) -> bool {
        self == 0
    }
}

impl ZeroNative for u8 {
    fn is_zero(self) -> bool {
        self == 0
    }
}

impl ZeroNative for u16 {
    fn is_zero(self) -> bool {
        self == 0
    }
}

impl ZeroNative for u32 {
    fn is_zero(self) -> bool {
        self == 0
    }
}

impl ZeroNative for u64 {
    fn is_zero(self) -> bool {
        self == 0
    }
}

impl ZeroNative for DaysMs {
    fn is_zero(self) -> bool {
        self.0 == 0 && self.1 == 0
    }
}

impl ZeroNative for MonthDayNano {
    fn is_zero(self) -> bool {
        self.0 == 0 && self.1 == 0 && self.2 == 0
    }
}
