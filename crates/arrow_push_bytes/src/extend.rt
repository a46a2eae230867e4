//! Values of given lengths that are appended at once.
ghost use Rattle.std.specs.Prelude.{◌≡◌, Bool, map, sum, length as count};
ghost use Rattle.arrow_views.specs.ViewArrays.{AreTextsIf};
ghost use Rattle.arrow_flat.specs.Slots.{bytes as slot_of};
ghost use Rattle.arrow_push.specs.State.{state};
ghost use Rattle.arrow_push_bytes.specs.Parts.{parts, PushesAll, PushesSome};

use crate::{MutableBinaryViewArray, ViewValues};
use arrow_flat::{Building, ViewType};
use arrow_push::{MaskedBuilder, NullableBuilder, TryPush};
use arrow_types::{PolarsError, PolarsResult, Reason};

/// A builder to which values of given lengths are appended at once.
pub trait ExtendFromLengths: Building {
    ghost is_text: { Bool };

    /// Appends the values of these lengths, which are the bytes, one after another; those of a
    /// builder of strings are UTF-8. Refused as pushes of the values in their order are, and where
    /// they are too many together before any is appended. A refused call changes nothing.
    fn extend_from_lengths(&mut self, bytes: &[u8], lengths: &[usize]) -> PolarsResult<()>
        requires lengths { sum lengths.now ≡ count bytes.now }
        requires texts { AreTextsIf is_text (parts lengths.now bytes.now) }
        ensures { PushesAll (map slot_of (parts lengths.now bytes.now))
            (Self.seen self.old) (Self.seen self.new) result };
}

impl<T: ViewType> ExtendFromLengths for MaskedBuilder<ViewValues<T>> {
    ghost is_text = { T.IS_TEXT };

    fn extend_from_lengths(&mut self, bytes: &[u8], lengths: &[usize]) -> PolarsResult<()> {
        if !self.values().has_room_for(bytes.len()) {
            return Err(PolarsError::ComputeError(Reason::LengthOverflow));
        }
        self.reserve_bytes(lengths.len(), bytes.len())?;
        let before = self.len();
        if let Err(error) = push_parts(self, bytes, lengths) {
            self.truncate(before);
            return Err(error);
        }
        Ok(())
    }
}

/// Pushes the values of these lengths one by one. A refused call keeps those before the refused
/// one.
fn push_parts<T: ViewType>(
    builder: &mut MutableBinaryViewArray<T>,
    bytes: &[u8],
    lengths: &[usize],
) -> PolarsResult<()>
    requires lengths { sum lengths.now ≡ count bytes.now }
    requires texts { AreTextsIf T.IS_TEXT (parts lengths.now bytes.now) }
    ensures { PushesSome (map slot_of (parts lengths.now bytes.now))
        (state builder.old) (state builder.new) result }
{
    let mut rest = bytes;
    for length in lengths {
        let (part, others) = rest.split_at(*length);
        builder.try_push(Some(part))?;
        rest = others;
    }
    Ok(())
}
