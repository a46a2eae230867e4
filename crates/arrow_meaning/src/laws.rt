//! Laws of flat arrays: what they read is what their layouts denote. The contract of each function
//! is the law; its body does nothing.
ghost use Rattle.std.specs.Prelude.{◌≡◌, length, map};
ghost use Rattle.arrow_bytes.specs.Binaries as binaries;
ghost use Rattle.arrow_bytes.specs.Binaries.{Binaries};
ghost use Rattle.arrow_bytes.specs.FixedSizeBinaries as sized;
ghost use Rattle.arrow_bytes.specs.FixedSizeBinaries.{FixedSizeBinaries};
ghost use Rattle.arrow_flat.specs.Booleans as booleans;
ghost use Rattle.arrow_flat.specs.Booleans.{Booleans};
ghost use Rattle.arrow_flat.specs.Primitives as primitives;
ghost use Rattle.arrow_flat.specs.Primitives.{MaskHasLength, Primitives};
ghost use Rattle.arrow_flat.specs.Slots.{bool, bytes, slot_or_null};
ghost use Rattle.arrow_layout.specs.Denote.{denote, under};
ghost use Rattle.arrow_meaning.specs.FlatSlots.{binary_slot, number_slot};
ghost use Rattle.arrow_meaning.specs.Nodes.{binary_layout, boolean_layout, fixed_size_binary_layout, primitive_layout, view_layout};
ghost use Rattle.arrow_views.specs.ViewArrays as views;
ghost use Rattle.arrow_views.specs.ViewArrays.{ViewArray};

use arrow_buffers::Offset;
use arrow_flat::NativeType;

/// Of an array of single bits: `get` and `iter` read the slots that its layout denotes, `value` and
/// `values_iter` those with the mask left aside.
pub fn booleans_denote()
    ensures slots { (a : Booleans) → MaskHasLength a.mask (length a.values.bits)
        → denote (boolean_layout a) ≡ map (slot_or_null bool) (booleans.slots a) }
    ensures values { (a : Booleans) → under (boolean_layout a) ≡ map bool a.values.bits }
{}

/// Of an array of values of fixed width.
pub fn primitives_denote<T: NativeType>()
    ensures slots { (a : Primitives T) → MaskHasLength a.mask (length a.values)
        → denote (primitive_layout T.parts a)
        ≡ map (slot_or_null (number_slot T.parts)) (primitives.slots a) }
    ensures values { (a : Primitives T)
        → under (primitive_layout T.parts a) ≡ map (number_slot T.parts) a.values }
{}

/// Of an array of binary values or of strings with offsets.
pub fn binaries_denote<O: Offset>()
    ensures slots { (a : Binaries O) → MaskHasLength a.mask (length (binaries.values_of O.number a))
        → denote (binary_layout O.number a)
        ≡ map (slot_or_null binary_slot) (binaries.slots O.number a) }
    ensures values { (a : Binaries O)
        → under (binary_layout O.number a) ≡ map binary_slot (binaries.values_of O.number a) }
{}

/// Of an array of binary values of one size.
pub fn fixed_size_binaries_denote()
    ensures slots { (a : FixedSizeBinaries) → MaskHasLength a.mask (length (sized.values_of a))
        → denote (fixed_size_binary_layout a) ≡ map (slot_or_null binary_slot) (sized.slots a) }
    ensures values { (a : FixedSizeBinaries)
        → under (fixed_size_binary_layout a) ≡ map binary_slot (sized.values_of a) }
{}

/// Of an array of binary values or of strings by views.
pub fn views_denote()
    ensures slots { (a : ViewArray) → MaskHasLength a.mask (length (views.values_of a))
        → denote (view_layout a) ≡ map (slot_or_null bytes) (views.slots a) }
    ensures values { (a : ViewArray) → under (view_layout a) ≡ map bytes (views.values_of a) }
{}
