//! A builder of values and nulls: a mask over a builder of values.
ghost use Rattle.std.specs.Prelude.{◌≡◌, length};
ghost use Rattle.std.proofs.Props.{props};
ghost use Rattle.arrow_flat.specs.SlotCode.{slot_code};
ghost use Rattle.arrow_push.specs.Masks.{with_nulls, count_or, all_filled};

use crate::mask::{extend_mask, freeze_mask, push_bit, reserve_mask, shrink_mask, truncate_mask};
use crate::{
    FreshValues, NullableBuilder, ReserveBytes, SolidValues, TryExtend, TryExtendFromSelf, TryPush,
    ValuesBuilder, push_each,
};
use arrow_buffers::MutableBitmap;
use arrow_flat::{Building, TryClone};
use arrow_types::{ArrowDataType, Mem, PolarsResult};
use std::alloc::Global;

/// A builder of values and nulls. It has no mask before the first null, and under each null a blank
/// stands among the values.
pub struct MaskedBuilder<V: ValuesBuilder> {
    values: V,
    validity: Option<MutableBitmap>,
    ghost fits: { count_or validity (length (V.seen values).slots) ≡ length (V.seen values).slots },
    ghost bare: { all_filled (V.blank (V.seen values).dtype)
        (with_nulls validity (V.seen values).slots)
        ≡ (V.seen values).slots } by { Prim.hlevel (props, slot_code) },
}

/// By hand: a place where a value may end then has one call to prove, and not the drop of each
/// field.
impl<V: ValuesBuilder + Drop> Drop for MaskedBuilder<V> {
    fn drop(self) {
        let MaskedBuilder {
            values: _,
            validity: _,
        } = self;
    }
}

impl<V: ValuesBuilder> Building for MaskedBuilder<V> {
    ghost use Rattle.arrow_push.specs.Masks.{built_under};
    ghost use Rattle.arrow_push.specs.Laws.{masked_starts};

    ghost seen = { λ b. built_under V.blank (V.seen b.values) b.validity };

    ghost starts = { λ b.
        masked_starts V.blank (V.seen b.values) b.validity (V.starts b.values) b.fits };
}

impl<V: FreshValues> MaskedBuilder<V> {
    ghost use Rattle.std.specs.Prelude.{◌≡◌, [], None, IfOk};
    ghost use Rattle.arrow_push.specs.State.{state, builder_mask};

    /// An empty builder of the default type of the values.
    pub fn new(alloc: Global) -> Mem<MaskedBuilder<V>>
        ensures slots { IfOk result (λ b. (state b).slots ≡ []) }
        ensures kind { IfOk result (λ b. (state b).dtype ≡ V.plain_type) }
        ensures unmasked { IfOk result (λ b. builder_mask b ≡ None) }
    {
        Ok(MaskedBuilder::over(V::fresh(alloc)?))
    }
}

impl<V: ValuesBuilder> MaskedBuilder<V> {
    ghost use Rattle.std.specs.Prelude.{◌≡◌, [], None, MatchResult, IfOk};
    ghost use Rattle.arrow_flat.specs.Built.{Pushes, IsCutTo};
    ghost use Rattle.arrow_push.specs.Arrays.{HoldsSlots};
    ghost use Rattle.arrow_push.specs.Masks.{finished_of};
    ghost use Rattle.arrow_push.specs.State.{state, builder_mask};

    /// No slots yet, over a builder without values.
    pub fn over(values: V) -> MaskedBuilder<V>
        requires { (V.seen values).slots ≡ [] }
        ensures slots { (state result).slots ≡ [] }
        ensures kind { (state result).dtype ≡ (V.seen values).dtype }
        ensures unmasked { builder_mask result ≡ None }
    {
        MaskedBuilder {
            values,
            validity: None,
        }
    }

    /// The values, with a blank under each null.
    pub fn values(&self) -> &V
        ensures { result.now ≡ self.now.values }
    {
        &self.values
    }

    /// The memory that the builder was given.
    pub fn allocator(&self) -> Global {
        self.values.allocator()
    }

    /// Appends a value. It begins no mask.
    fn push_value<A>(&mut self, value: A) -> PolarsResult<()>
    where
        V: SolidValues<A>,
        requires { V.TryPush.can_take value }
        ensures pushed { Pushes (V.TryPush.stands_for value) (V.TryPush.begins value)
            (state self.old) (state self.new) result }
        ensures unmasked { builder_mask self.old ≡ None → builder_mask self.new ≡ None }
    {
        let alloc = self.values.allocator();
        let len = self.values.len();
        self.values.try_push(value)?;
        if let Err(refused) = push_bit(alloc, &mut self.validity, len, true) {
            self.values.truncate(len);
            return Err(refused.into());
        }
        Ok(())
    }

    /// The array of the slots, with a mask exactly where a slot is null. The builder is left empty
    /// and without a mask, where memory is short too.
    pub fn finish(&mut self) -> Mem<V::Array>
        ensures value { IfOk result (λ a. V.finished a ≡ finished_of (state self.old)) }
        ensures denoted { IfOk result (λ a. HoldsSlots (state self.old) (V.layout a)) }
        ensures emptied { IsCutTo 0 (state self.old) (state self.new) }
        ensures unmasked { builder_mask self.new ≡ None }
    {
        match freeze_mask(&mut self.validity) {
            Ok(validity) => self.values.finish_under(validity),
            Err(refused) => {
                self.values.truncate(0);
                Err(refused)
            }
        }
    }
}

impl<V: ReserveBytes> MaskedBuilder<V> {
    ghost use Rattle.std.specs.Prelude.{◌≡◌};
    ghost use Rattle.arrow_push.specs.State.{state, builder_mask};

    /// Makes room for `additional` slots more, of `bytes` bytes together.
    pub fn reserve_bytes(&mut self, additional: usize, bytes: usize) -> Mem<()>
        ensures slots { state self.new ≡ state self.old }
        ensures mask { builder_mask self.new ≡ builder_mask self.old }
    {
        self.values.reserve_bytes(additional, bytes)?;
        reserve_mask(&mut self.validity, additional)
    }
}

impl<V: ValuesBuilder> NullableBuilder for MaskedBuilder<V> {
    ghost use Rattle.std.specs.Prelude.{◌≡◌, ◌≤◌, length, map, None, IfSome, IfNone};
    ghost use Rattle.std.specs.Option.{option_copied};
    ghost use Rattle.arrow_flat.specs.Built.{IsCutTo};
    ghost use Rattle.arrow_flat.specs.Slots.{is_valid as is_valid_slot};
    ghost use Rattle.arrow_push.specs.Masks.{cut_to};
    ghost use Rattle.arrow_push.specs.Nulls.{AreValid};
    ghost use Rattle.arrow_push.specs.State.{state, builder_mask};

    fn dtype(&self) -> &ArrowDataType {
        self.values.dtype()
    }

    fn len(&self) -> usize {
        self.values.len()
    }

    /// The mask, where there is one: a set bit for each slot that isn't null. Without a mask no
    /// slot is null.
    fn validity(&self) -> Option<&MutableBitmap>
        ensures bits { IfSome (option_copied result)
            (λ bits. bits ≡ map is_valid_slot (state self.now).slots) }
        ensures none { IfNone (option_copied result) (AreValid (state self.now).slots) }
        ensures mask { option_copied result ≡ builder_mask self.now }
    {
        self.validity.as_ref()
    }

    fn is_valid(&self, i: usize) -> bool {
        match &self.validity {
            None => true,
            Some(bits) => bits.get(i),
        }
    }

    fn push_null(&mut self) -> PolarsResult<()> {
        let alloc = self.values.allocator();
        let len = self.values.len();
        self.values.push_blank()?;
        if let Err(refused) = push_bit(alloc, &mut self.validity, len, false) {
            self.values.truncate(len);
            return Err(refused.into());
        }
        Ok(())
    }

    /// Keeps the first `len` slots, with the mask that is there. Takes no memory.
    fn truncate(&mut self, len: usize)
        requires { len ≤ length (state self.old).slots }
        ensures cut { IsCutTo len (state self.old) (state self.new) }
        ensures mask { builder_mask self.new ≡ cut_to (builder_mask self.old) len }
    {
        self.values.truncate(len);
        truncate_mask(&mut self.validity, len);
    }

    /// Makes room for `additional` slots more. It begins no mask.
    fn reserve(&mut self, additional: usize) -> Mem<()>
        ensures slots { state self.new ≡ state self.old }
        ensures mask { builder_mask self.new ≡ builder_mask self.old }
    {
        self.values.reserve(additional)?;
        reserve_mask(&mut self.validity, additional)
    }

    /// Gives room back that no slot needs, and none of the mask.
    fn shrink_to_fit(&mut self) -> Mem<()>
        ensures slots { state self.new ≡ state self.old }
        ensures mask { builder_mask self.new ≡ builder_mask self.old }
    {
        shrink_mask(&mut self.validity);
        self.values.shrink_to_fit()
    }
}

impl<V: ValuesBuilder + TryClone> TryClone for MaskedBuilder<V> {
    fn try_clone(&self, alloc: Global) -> Mem<MaskedBuilder<V>> {
        let validity = self.validity.try_clone(alloc)?;
        let values = self.values.try_clone(alloc)?;
        Ok(MaskedBuilder { values, validity })
    }
}

impl<A, V: ValuesBuilder + SolidValues<A>> TryPush<Option<A>> for MaskedBuilder<V> {
    ghost use Rattle.std.specs.Prelude.{◌≡◌, ◌≤◌, length, None, IsSome, IsTrue};
    ghost use Rattle.arrow_flat.specs.Built.{Pushes};
    ghost use Rattle.arrow_push.specs.Items.{CanTakeSome, OrNull};
    ghost use Rattle.arrow_push.specs.State.{state, builder_mask};

    ghost can_take = { CanTakeSome V.TryPush.can_take };

    ghost stands_for = { OrNull V.TryPush.stands_for };

    ghost begins = { OrNull V.TryPush.begins };

    /// Appends a value, or a null where there is none. The first null begins the mask.
    fn try_push(&mut self, item: Option<A>) -> PolarsResult<()>
        requires { CanTakeSome V.TryPush.can_take item }
        ensures grows { length (state self.old).slots ≤ length (state self.new).slots }
        ensures pushed { IsTrue (state self.old).whole
            → Pushes (OrNull V.TryPush.stands_for item) (OrNull V.TryPush.begins item)
            (state self.old) (state self.new) result }
        ensures unmasked { IsSome item → builder_mask self.old ≡ None → builder_mask self.new ≡ None }
    {
        match item {
            Some(value) => self.push_value(value),
            None => self.push_null(),
        }
    }
}

impl<A, V: ValuesBuilder + SolidValues<A>> TryExtend<Option<A>> for MaskedBuilder<V> {
    ghost use Rattle.arrow_push.specs.Items.{CanTakeSome, OrNull};

    ghost can_take = { CanTakeSome V.TryPush.can_take };

    ghost stands_for = { OrNull V.TryPush.stands_for };

    ghost begins = { OrNull V.TryPush.begins };

    fn try_extend<I: IntoIterator<Item = Option<A>>>(&mut self, iter: I) -> PolarsResult<()> {
        push_each(self, iter)
    }
}

impl<V: ValuesBuilder> TryExtendFromSelf for MaskedBuilder<V> {
    ghost use Rattle.std.specs.Prelude.{◌≡◌, ⊤, length, IsTrue, MatchResult};
    ghost use Rattle.arrow_flat.specs.Built.{ExtendsFrom};
    ghost use Rattle.arrow_push.specs.Masks.{appended_mask};
    ghost use Rattle.arrow_push.specs.State.{state, builder_mask};

    ghost from_refusal = { λ a b. (state a).refusal (state b).slots };

    ghost Bare = { λ b. ⊤ };

    /// Appends the slots of a builder of the same type. A refused call leaves the slots and the
    /// mask, and later pushes do what they would have done.
    fn try_extend_from_self(&mut self, other: &MaskedBuilder<V>) -> PolarsResult<()>
        requires types { (state other.now).dtype ≡ (state self.old).dtype }
        requires both { IsTrue (state self.old).whole × IsTrue (state other.now).whole }
        ensures extended { ExtendsFrom ((state self.old).refusal (state other.now).slots) ⊤
            (state self.old) (state self.new) (state other.now).slots result }
        ensures mask { let count = length (state other.now).slots in
            MatchResult result
            (λ _. builder_mask self.new ≡ appended_mask (builder_mask self.old)
            (length (state self.old).slots) (builder_mask other.now) count)
            (λ _. builder_mask self.new ≡ builder_mask self.old) }
    {
        let alloc = self.values.allocator();
        let len = self.values.len();
        self.values.extend_values(&other.values)?;
        let count = other.values.len();
        if let Err(refused) = extend_mask(alloc, &mut self.validity, len, &other.validity, count) {
            self.values.truncate(len);
            return Err(refused.into());
        }
        Ok(())
    }
}
