//! The traits of what is pushed on builders.
ghost use Rattle.std.specs.Prelude.{◌≡◌, ◌≤◌, length, Option, IsTrue};
ghost use Rattle.std.specs.Iterator.{IsFiniteIterable};
ghost use Rattle.arrow_types.specs.declared.error.PolarsError.{PolarsError};
ghost use Rattle.arrow_flat.specs.Slots.{Slot};
ghost use Rattle.arrow_flat.specs.Built.{Pushes, Extends, ExtendsFrom};
ghost use Rattle.arrow_push.specs.Items.{EachItem};

use arrow_flat::Building;
use arrow_types::PolarsResult;

/// Appends one slot.
pub trait TryPush<A>: Building {
    ghost can_take: { A → Type 0 };

    ghost stands_for: { A → Slot → Type 0 };

    ghost begins: { A → Slot → Type 0 };

    /// Appends the slot that the item stands for. A refused call leaves the slots, and later pushes
    /// do what they would have done.
    fn try_push(&mut self, item: A) -> PolarsResult<()>
        requires { can_take item }
        ensures grows { length (Self.seen self.old).slots ≤ length (Self.seen self.new).slots }
        ensures pushed { IsTrue (Self.seen self.old).whole
            → Pushes (stands_for item) (begins item)
            (Self.seen self.old) (Self.seen self.new) result };
}

/// Appends the items of an iterator, in their order.
pub trait TryExtend<A>: Building {
    ghost can_take: { A → Type 0 };

    ghost stands_for: { A → Slot → Type 0 };

    ghost begins: { A → Slot → Type 0 };

    /// Appends the slots that the items of a finite iterator stand for. A refused call keeps those
    /// before the refused one.
    fn try_extend<I: IntoIterator<Item = A>>(&mut self, iter: I) -> PolarsResult<()>
        requires finite { IsFiniteIterable
            I.into_iter_gives I.IntoIter.can_next I.IntoIter.remaining iter }
        requires accepted { EachItem I.into_iter_gives I.IntoIter.next_gives can_take iter }
        ensures grows { length (Self.seen self.old).slots ≤ length (Self.seen self.new).slots }
        ensures extended { IsTrue (Self.seen self.old).whole
            → Extends I.into_iter_gives I.IntoIter.next_gives stands_for begins iter
            (Self.seen self.old) (Self.seen self.new) result };
}

/// Appends the slots of another builder.
pub trait TryExtendFromSelf: Building {
    ghost from_refusal: { Self → Self → Option PolarsError };

    ghost Bare: { Self → Type 0 };

    /// Appends the slots of a builder of the same type. A refused call leaves the slots, and later
    /// pushes do what they would have done.
    fn try_extend_from_self(&mut self, other: &Self) -> PolarsResult<()>
        requires types { (Self.seen other.now).dtype ≡ (Self.seen self.old).dtype }
        requires both { IsTrue (Self.seen self.old).whole × IsTrue (Self.seen other.now).whole }
        ensures { ExtendsFrom (from_refusal self.old other.now) (Bare other.now)
            (Self.seen self.old) (Self.seen self.new) (Self.seen other.now).slots result };
}

/// Pushes the items of an iterator one by one. A refused call keeps those before the refused one.
pub fn push_each<A, B: TryPush<A>, I: IntoIterator<Item = A>>(
    builder: &mut B,
    iter: I,
) -> PolarsResult<()>
    requires finite { IsFiniteIterable
        I.into_iter_gives I.IntoIter.can_next I.IntoIter.remaining iter }
    requires accepted { EachItem I.into_iter_gives I.IntoIter.next_gives B.can_take iter }
    ensures grows { length (B.seen builder.old).slots ≤ length (B.seen builder.new).slots }
    ensures extended { IsTrue (B.seen builder.old).whole
        → Extends I.into_iter_gives I.IntoIter.next_gives B.stands_for B.begins iter
        (B.seen builder.old) (B.seen builder.new) result }
{
    for item in iter {
        builder.try_push(item)?;
    }
    Ok(())
}
