//! The iterator over the lists of an array that aren't null.
ghost use Rattle.std.specs.Prelude.{◌≡◌, ◌+◌, ◌-◌, ◌<◌, ◌≤◌, length as count, true, Some, IfOk, IfSome};
ghost use Rattle.std.specs.Iterator.{at_most, item_count, UpTo};
ghost use Rattle.std.specs.Iterator.SizeHint.{IsWithinCount};
ghost use Rattle.arrow_layout.specs.Layouts.{length_of};
ghost use Rattle.arrow_layout.specs.Masks.{valid_in};
ghost use Rattle.arrow_nested.specs.Lists.{lists_between, non_null_values, valid_list_values};

use crate::ListArray;
use arrow_meaning::{ArrayRef, NodeOffset, TypedArray};
use arrow_types::Mem;
use std::alloc::Global;
use std::iter::FusedIterator;
use std::marker::Model;

/// The items of the slots of a list array that aren't null, in order and from both ends, seen as
/// the list of the layouts that are left. Out of memory passes the slot.
#[derive(Drop)]
pub struct NonNullValuesIter<'a, O: NodeOffset> {
    array: &'a ListArray<O>,
    alloc: Global,
    front: usize,
    back: usize,
    left: usize,
}

impl<'a, O: NodeOffset> Model for NonNullValuesIter<'a, O> {
    ghost use Rattle.std.specs.Prelude.{◌≡◌, ◌≤◌, List, length};
    ghost use Rattle.arrow_layout.specs.Layouts.{Layout, length_of};
    ghost use Rattle.arrow_layout.specs.LayoutCode.{layout_code};
    ghost use Rattle.arrow_nested.specs.Lists.{lists_between, valid_list_values};

    ghost Value = { List Layout };

    ghost use Rattle.std.specs.Coded.{codes};

    ghost coded = { Prim.hlevel (codes, layout_code) };

    ghost view = { λ it. lists_between (valid_list_values it.array.now) it.front it.back };

    ghost invariant = { λ it. (it.front ≤ it.back) × (it.back ≤ length_of it.array.now)
        × (length (lists_between (valid_list_values it.array.now) it.front it.back) ≡ it.left) };
}

impl<'a, O: NodeOffset> NonNullValuesIter<'a, O> {
    /// The items of each slot of the array that isn't null.
    pub(crate) fn new(alloc: Global, array: &'a ListArray<O>) -> NonNullValuesIter<'a, O>
        ensures { result ≡ non_null_values array.now }
    {
        array.invariant();
        let back = array.len();
        NonNullValuesIter {
            array,
            alloc,
            front: 0,
            back,
            left: back - array.null_count(),
        }
    }
}

/// The first slot from `front` on that isn't null, or `back` where there is none below it.
fn first_valid<O: NodeOffset>(array: &ListArray<O>, front: usize, back: usize) -> usize
    requires { (front ≤ back) × (back ≤ length_of array.now) }
    ensures within { (front ≤ result) × (result ≤ back) }
    ensures same { lists_between (valid_list_values array.now) result back
        ≡ lists_between (valid_list_values array.now) front back }
    ensures valid { result < back → valid_in array.now result ≡ true }
{
    array.invariant();
    let mut i = front;
    while i < back && array.is_null(i) {
        i += 1;
    }
    i
}

/// Behind the last slot below `back` that isn't null, or `front` where there is none from it on.
fn last_valid<O: NodeOffset>(array: &ListArray<O>, front: usize, back: usize) -> usize
    requires { (front ≤ back) × (back ≤ length_of array.now) }
    ensures within { (front ≤ result) × (result ≤ back) }
    ensures same { lists_between (valid_list_values array.now) front result
        ≡ lists_between (valid_list_values array.now) front back }
    ensures valid { front < result → valid_in array.now (result - 1) ≡ true }
{
    array.invariant();
    let mut i = back;
    while i > front && array.is_null(i - 1) {
        i -= 1;
    }
    i
}

impl<'a, O: NodeOffset> Iterator for NonNullValuesIter<'a, O> {
    ghost use Rattle.arrow_flat.specs.Made.{StandsIfMade, YieldsFirstAs};

    type Item = Mem<ArrayRef>;

    ghost next_gives = { YieldsFirstAs (StandsIfMade (λ x y. x ≡ y)) (λ rest. rest) };

    ghost remaining = { item_count (λ rest. rest) };

    fn next(&mut self) -> Option<Mem<ArrayRef>> {
        if self.left == 0 {
            return None;
        }
        self.array.invariant();
        let i = first_valid(self.array, self.front, self.back);
        self.front = i + 1;
        self.left -= 1;
        Some(self.array.value(self.alloc, i))
    }

    fn size_hint(&self) -> (usize, Option<usize>)
        ensures lower { IsWithinCount result.0 (at_most (count self.now)) }
        ensures upper { IfSome result.1 (UpTo (at_most (count self.now))) }
        ensures exact { (result.0 ≡ count self.now) × (result.1 ≡ Some result.0) }
    {
        (self.left, Some(self.left))
    }
}

impl<'a, O: NodeOffset> DoubleEndedIterator for NonNullValuesIter<'a, O> {
    ghost use Rattle.arrow_flat.specs.Made.{StandsIfMade, YieldsLastAs};

    ghost next_back_gives = { YieldsLastAs (StandsIfMade (λ x y. x ≡ y)) (λ rest. rest) };

    fn next_back(&mut self) -> Option<Mem<ArrayRef>> {
        if self.left == 0 {
            return None;
        }
        self.array.invariant();
        let end = last_valid(self.array, self.front, self.back);
        self.back = end - 1;
        self.left -= 1;
        Some(self.array.value(self.alloc, end - 1))
    }
}

impl<'a, O: NodeOffset> ExactSizeIterator for NonNullValuesIter<'a, O> {
    fn len(&self) -> usize {
        self.left
    }
}

impl<'a, O: NodeOffset> FusedIterator for NonNullValuesIter<'a, O> {}
