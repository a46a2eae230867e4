//! What is pushed on builders of strings by offsets.
use crate::OffsetValues;
use arrow_buffers::Offset;
use arrow_flat::ViewStr;
use arrow_push::{SolidValues, TryExtend, TryPush, push_each};
use arrow_types::PolarsResult;

impl<'a, O: Offset> TryPush<&'a str> for OffsetValues<ViewStr, O> {
    ghost use Rattle.std.specs.Prelude.{◌≡◌, ⊤};
    ghost use Rattle.arrow_flat.specs.Slots.{bytes};

    ghost can_take = { λ x. ⊤ };

    ghost stands_for = { λ x y. y ≡ bytes x.now };

    ghost begins = { λ x y. y ≡ bytes x.now };

    fn try_push(&mut self, item: &'a str) -> PolarsResult<()> {
        self.push_bytes(item.as_bytes())
    }
}

impl<'a, O: Offset> SolidValues<&'a str> for OffsetValues<ViewStr, O> {
    ghost use Rattle.std.proofs.Common.{ap};
    ghost use Rattle.arrow_flat.specs.Slots.{is_valid};

    ghost solid = { λ x y e. ap is_valid e };

    ghost solid_begun = { λ x y e. ap is_valid e };
}

impl<'a, O: Offset> TryExtend<&'a str> for OffsetValues<ViewStr, O> {
    ghost use Rattle.std.specs.Prelude.{◌≡◌, ⊤};
    ghost use Rattle.arrow_flat.specs.Slots.{bytes};

    ghost can_take = { λ x. ⊤ };

    ghost stands_for = { λ x y. y ≡ bytes x.now };

    ghost begins = { λ x y. y ≡ bytes x.now };

    fn try_extend<I: IntoIterator<Item = &'a str>>(&mut self, iter: I) -> PolarsResult<()> {
        push_each(self, iter)
    }
}
