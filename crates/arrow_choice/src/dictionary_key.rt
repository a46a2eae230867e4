//! The types that the keys of dictionaries have.
ghost use Rattle.std.specs.Prelude.{◌≡◌, ◌+◌, ◌<◌, ◌^◌, ℕ, min, MatchOption, not, pos, refl};
ghost use Rattle.arrow_types.specs.Capacity.{key_capacity};
ghost use Rattle.arrow_types.specs.Carried.{IsBelow};
ghost use Rattle.arrow_layout.specs.Forms.{has_sign};
ghost use Rattle.arrow_meaning.specs.Nodes.{key_number, key_primitive};

use arrow_meaning::NodeKey;

/// A native type that the keys of a dictionary may have: whole numbers, of which those from 0 on
/// are positions among the values.
///
/// `KEY_TYPE` is that of `NodeKey`.
pub trait DictionaryKey: NodeKey {
    /// The greatest `usize` that is a key.
    const MAX_USIZE_VALUE: usize;

    ghost MAX_USIZE_VALUE: { ℕ };

    /// The key of a position, `None` exactly where the position isn't below the key capacity: the
    /// count of the type's numbers that aren't negative.
    fn from_usize(n: usize) -> Option<Self>
        ensures { MatchOption result (n < key_capacity Self.KEY_TYPE → ⊥)
            (λ k. (n < key_capacity Self.KEY_TYPE) × (key_number (Self.parts k) ≡ pos n)) };

    /// Whether each key is a position: whether the type has no sign.
    fn always_fits_usize() -> bool
        ensures { result ≡ not (has_sign Self.KEY_TYPE) };

    ghost stored: { Self.PRIMITIVE ≡ key_primitive Self.KEY_TYPE };

    ghost greatest: { MAX_USIZE_VALUE + 1 ≡ min (key_capacity Self.KEY_TYPE) (2 ^ 64) };

    /// The key as a position, `None` exactly where it is negative or passes the greatest `usize`.
    final fn to_usize(self) -> Option<usize>
        ensures { MatchOption result (IsBelow (2 ^ 64) (key_number (Self.parts self)) → ⊥)
            (λ n. key_number (Self.parts self) ≡ pos n) }
    {
        self.to_position()
    }
}

impl DictionaryKey for i8 {
    const MAX_USIZE_VALUE: usize = 0x7f;

    ghost MAX_USIZE_VALUE = { 0x7f };

    fn from_usize(n: usize) -> Option<i8> {
        i8::try_from(n).ok()
    }

    fn always_fits_usize() -> bool {
        false
    }

    ghost stored = { refl };

    ghost greatest = { refl };
}

impl DictionaryKey for i16 {
    const MAX_USIZE_VALUE: usize = 0x7fff;

    ghost MAX_USIZE_VALUE = { 0x7fff };

    fn from_usize(n: usize) -> Option<i16> {
        i16::try_from(n).ok()
    }

    fn always_fits_usize() -> bool {
        false
    }

    ghost stored = { refl };

    ghost greatest = { refl };
}

impl DictionaryKey for i32 {
    const MAX_USIZE_VALUE: usize = 0x7fff_ffff;

    ghost MAX_USIZE_VALUE = { 0x7fff_ffff };

    fn from_usize(n: usize) -> Option<i32> {
        i32::try_from(n).ok()
    }

    fn always_fits_usize() -> bool {
        false
    }

    ghost stored = { refl };

    ghost greatest = { refl };
}

impl DictionaryKey for i64 {
    const MAX_USIZE_VALUE: usize = 0x7fff_ffff_ffff_ffff;

    ghost MAX_USIZE_VALUE = { 0x7fff_ffff_ffff_ffff };

    fn from_usize(n: usize) -> Option<i64> {
        i64::try_from(n).ok()
    }

    fn always_fits_usize() -> bool {
        false
    }

    ghost stored = { refl };

    ghost greatest = { refl };
}

impl DictionaryKey for i128 {
    const MAX_USIZE_VALUE: usize = 0xffff_ffff_ffff_ffff;

    ghost MAX_USIZE_VALUE = { 0xffff_ffff_ffff_ffff };

    fn from_usize(n: usize) -> Option<i128> {
        i128::try_from(n).ok()
    }

    fn always_fits_usize() -> bool {
        false
    }

    ghost stored = { refl };

    ghost greatest = { refl };
}

impl DictionaryKey for u8 {
    const MAX_USIZE_VALUE: usize = 0xff;

    ghost MAX_USIZE_VALUE = { 0xff };

    fn from_usize(n: usize) -> Option<u8> {
        u8::try_from(n).ok()
    }

    fn always_fits_usize() -> bool {
        true
    }

    ghost stored = { refl };

    ghost greatest = { refl };
}

impl DictionaryKey for u16 {
    const MAX_USIZE_VALUE: usize = 0xffff;

    ghost MAX_USIZE_VALUE = { 0xffff };

    fn from_usize(n: usize) -> Option<u16> {
        u16::try_from(n).ok()
    }

    fn always_fits_usize() -> bool {
        true
    }

    ghost stored = { refl };

    ghost greatest = { refl };
}

impl DictionaryKey for u32 {
    const MAX_USIZE_VALUE: usize = 0xffff_ffff;

    ghost MAX_USIZE_VALUE = { 0xffff_ffff };

    fn from_usize(n: usize) -> Option<u32> {
        u32::try_from(n).ok()
    }

    fn always_fits_usize() -> bool {
        true
    }

    ghost stored = { refl };

    ghost greatest = { refl };
}

impl DictionaryKey for u64 {
    const MAX_USIZE_VALUE: usize = 0xffff_ffff_ffff_ffff;

    ghost MAX_USIZE_VALUE = { 0xffff_ffff_ffff_ffff };

    fn from_usize(n: usize) -> Option<u64> {
        u64::try_from(n).ok()
    }

    fn always_fits_usize() -> bool {
        true
    }

    ghost stored = { refl };

    ghost greatest = { refl };
}
