//! What no clause says: that calls succeed with ample memory, and that the clauses mean what
//! columns by views do.

use crate::halves::{Counted, Counts, counts_of, has_halves};
use arrow_buffers::{Bitmap, Buffer};
use arrow_types::{ArrowDataType, Mem, PolarsResult, Reason};
use arrow_views::{
    BinaryViewArray, BinaryViewArrayGeneric, Utf8ViewArray, View, ViewBytes, ViewStr, ViewType,
};
use flat_fixtures::{buffer_of, ends_as, gives, parts_of, twice};
use std::alloc::Global;
use std::test::Fail;

const TEXT: &[u8] = b"thirteen bytes";

const NO_TEXT: &[u8] = b"thirteen byte\xff";

const ACCENT: &[u8] = b"\xc3\xa9thirteen bytes";

/// A string of fourteen bytes, and a byte that no character begins with.
const TORN: &[u8] = b"thirteen bytes\x80";

/// The byte before the string.
const TORN_FIRST: &[u8] = b"\x80thirteen bytes";

/// One buffer, of these bytes.
fn one_buffer(alloc: Global, bytes: &[u8]) -> Mem<Vec<Buffer<u8>>> {
    let buffer = buffer_of(alloc, bytes)?;
    Ok(vec![in alloc; buffer]?)
}

/// Views and a mask.
fn masked(alloc: Global, views: &[View], bits: &[bool]) -> Mem<(Buffer<View>, Bitmap)> {
    let mask = Bitmap::from_bools(alloc, bits)?;
    let views = buffer_of(alloc, views)?;
    Ok((views, mask))
}

/// Views, one buffer, and a mask.
type Parts = (Buffer<View>, Vec<Buffer<u8>>, Bitmap);

fn parts(alloc: Global, views: &[View], bytes: &[u8], bits: &[bool]) -> Mem<Parts> {
    let buffers = one_buffer(alloc, bytes)?;
    let (views, mask) = masked(alloc, views, bits)?;
    Ok((views, buffers, mask))
}

/// An array of these views over one buffer, under a mask, of the type by views or the one by
/// offsets.
fn array_of<T: ViewType>(
    alloc: Global,
    by_offsets: bool,
    views: &[View],
    bytes: &[u8],
    bits: &[bool],
) -> PolarsResult<BinaryViewArrayGeneric<T>> {
    let (views, buffers, mask) = parts(alloc, views, bytes, bits)?;
    let dtype = type_of(T::IS_TEXT, by_offsets);
    BinaryViewArrayGeneric::try_new(dtype, views, buffers, Some(mask))
}

/// The same with memory for the test of strings.
fn array_in<T: ViewType>(
    alloc: Global,
    by_offsets: bool,
    views: &[View],
    bytes: &[u8],
    bits: &[bool],
) -> PolarsResult<BinaryViewArrayGeneric<T>> {
    let (views, buffers, mask) = parts(alloc, views, bytes, bits)?;
    let dtype = type_of(T::IS_TEXT, by_offsets);
    BinaryViewArrayGeneric::try_new_in(alloc, dtype, views, buffers, Some(mask))
}

fn type_of(is_text: bool, by_offsets: bool) -> ArrowDataType {
    if is_text {
        if by_offsets {
            ArrowDataType::Utf8
        } else {
            ArrowDataType::Utf8View
        }
    } else {
        if by_offsets {
            ArrowDataType::Binary
        } else {
            ArrowDataType::BinaryView
        }
    }
}

/// A view of one byte, with these bytes after it.
fn padded(byte: u8, last: u8) -> View {
    View::from_bytes([1, 0, 0, 0, byte, 0, 0, 0, 0, 0, 0, 0, 0, 0, 0, last])
}

/// The length, the prefix, the buffer and the offset of a view of a long value.
type Long = (u32, [u8; 4], u32, u32);

const PAST: Long = (14, *b"hirt", 0, 1);

const GOOD: Long = (14, *b"thir", 0, 0);

const INSIDE: Long = (14, *b"\xa9thi", 0, 1);

const SECOND: Long = (14, *b"thir", 0, 1);

const FIRST: Long = (14, *b"\x80thi", 0, 0);

const SHORT: Long = (13, *b"thir", 0, 0);

const NO_BUFFER: Long = (13, *b"thir", 1, 0);

const OTHER_PREFIX: Long = (14, *b"thit", 0, 0);

const MASK: Option<Reason> = Some(Reason::MaskLength);

const TYPE: Option<Reason> = Some(Reason::WrongLogicalType);

const RANGE: Option<Reason> = Some(Reason::ViewRange);

const UTF8: Option<Reason> = Some(Reason::NotUtf8);

/// A view, its buffer, its mask, whether the type is the one by offsets, and the refusals of binary
/// values and of strings.
type Case<V> = (
    V,
    &'static [u8],
    &'static [bool],
    bool,
    Option<Reason>,
    Option<Reason>,
);

const LONG: &[Case<Long>] = &[
    (PAST, TEXT, &[true, true], true, MASK, MASK),
    (PAST, TEXT, &[true], true, TYPE, TYPE),
    (PAST, TEXT, &[true], false, RANGE, RANGE),
    (PAST, NO_TEXT, &[false], false, RANGE, RANGE),
    (NO_BUFFER, TEXT, &[true], false, RANGE, RANGE),
    (OTHER_PREFIX, TEXT, &[true], false, RANGE, RANGE),
    (GOOD, NO_TEXT, &[true], false, None, UTF8),
    (INSIDE, ACCENT, &[true], false, None, UTF8),
    (SHORT, NO_TEXT, &[true], false, None, None),
    (GOOD, TORN, &[true], false, None, None),
    (SECOND, TORN_FIRST, &[true], false, None, None),
    (FIRST, TORN_FIRST, &[false], false, None, UTF8),
    (GOOD, TEXT, &[true], false, None, None),
];

const PADDED: &[Case<(u8, u8)>] = &[
    ((b'a', 1), TEXT, &[true], false, RANGE, RANGE),
    ((0xff, 0), TEXT, &[false], false, None, UTF8),
    ((b'a', 0), TEXT, &[true], false, None, None),
];

/// Whether arrays of this view end so: the one of binary values, and the one of strings.
fn end_as<V: Copy>(alloc: Global, view: View, case: &Case<V>) -> bool {
    let (_, bytes, bits, by_offsets, as_bytes, as_text) = *case;
    let views = [view];
    ends_as(
        array_of::<ViewBytes>(alloc, by_offsets, &views, bytes, bits),
        as_bytes,
    ) && ends_as(
        array_of::<ViewStr>(alloc, by_offsets, &views, bytes, bits),
        as_text,
    ) && end_in_as(alloc, view, case)
}

/// The same with memory for the test of strings.
fn end_in_as<V: Copy>(alloc: Global, view: View, case: &Case<V>) -> bool {
    let (_, bytes, bits, by_offsets, as_bytes, as_text) = *case;
    let views = [view];
    ends_as(
        array_in::<ViewBytes>(alloc, by_offsets, &views, bytes, bits),
        as_bytes,
    ) && ends_as(
        array_in::<ViewStr>(alloc, by_offsets, &views, bytes, bits),
        as_text,
    )
}

/// The same of a view of a long value.
fn long_end_as(alloc: Global, case: &Case<Long>) -> bool {
    let (length, prefix, buffer, offset) = case.0;
    12 < length && end_as(alloc, View::new_long(length, prefix, buffer, offset), case)
}

/// The same of a view of one byte.
fn padded_end_as(alloc: Global, case: &Case<(u8, u8)>) -> bool {
    let (byte, last) = case.0;
    end_as(alloc, padded(byte, last), case)
}

#[test]
fn the_first_test_that_fails_is_named(rt: HostRuntime) {
    for case in LONG {
        assert!(rt; long_end_as(rt.alloc(), case));
    }
    for case in PADDED {
        assert!(rt; padded_end_as(rt.alloc(), case));
    }
}

#[test]
fn views_are_their_bytes(rt: HostRuntime) {
    let inline = View::new_inline(b"abc");
    assert!(rt; *inline.as_bytes() == [3, 0, 0, 0, 97, 98, 99, 0, 0, 0, 0, 0, 0, 0, 0, 0]);
    let long = View::new_long(0x0102, *b"abcd", 0x0304, 0x0506);
    assert!(rt; *long.as_bytes() == [2, 1, 0, 0, 97, 98, 99, 100, 4, 3, 0, 0, 6, 5, 0, 0]);
    assert!(rt; long.length() == 0x0102 && long.buffer() == 0x0304 && long.offset() == 0x0506);
    assert!(rt; View::from_bytes(*long.as_bytes()) == long && long != inline);
}

/// Three views: of one byte, of no byte, and of a long value.
fn views() -> [View; 3] {
    [
        View::new_inline(b"a"),
        View::new_inline(b""),
        View::new_long(14, *b"thir", 0, 0),
    ]
}

/// Whether three strings are those of the views, the second a null.
fn has_strings(strings: &Utf8ViewArray) -> bool {
    strings.len() == 3
        && strings.null_count() == 1
        && gives(strings.iter(), &[Some("a"), None, Some("thirteen bytes")])
        && gives(strings.values_iter().rev(), &["thirteen bytes", "", "a"])
}

/// Whether a copy of three strings is cut to the last two, over the same buffer.
fn has_cut_copy(alloc: Global, strings: &Utf8ViewArray) -> Mem<bool> {
    let mut copy = strings.try_clone(alloc)?;
    let is_whole = copy.len() == 3;
    if is_whole {
        copy.slice(1, 2);
    }
    let is_cut = copy.len() == 2 && copy.null_count() == 1 && copy.data_buffers().len() == 1;
    drop(copy);
    Ok(is_whole && is_cut)
}

#[test]
fn strings_are_read(rt: HostRuntime) -> Result<(), Fail> {
    let bits = [true, false, true];
    let strings: Utf8ViewArray = array_of(rt.alloc(), false, &views(), TEXT, &bits)?;
    let has_strings = has_strings(&strings);
    let has_cut_copy = has_cut_copy(rt.alloc(), &strings);
    drop(strings);
    assert!(rt; has_strings && has_cut_copy?);
    Ok(())
}

/// Three binary values under no mask.
fn unmasked(alloc: Global) -> PolarsResult<BinaryViewArray> {
    let buffers = one_buffer(alloc, TEXT)?;
    let (views, mask) = parts_of(alloc, &views(), None)?;
    BinaryViewArray::try_new(ArrowDataType::BinaryView, views, buffers, mask)
}

/// Puts a mask over three binary values; whether they were three.
fn mask_first(bytes: &mut BinaryViewArray, mask: Bitmap) -> bool {
    if bytes.len() != 3 || mask.len() != 3 {
        drop(mask);
        return false;
    }
    bytes.set_validity(Some(mask));
    true
}

const BYTES: &[&[u8]] = &[b"a", b"", TEXT];

const BYTES_BACK: &[Option<&[u8]>] = &[Some(TEXT), Some(b""), None];

/// Whether binary values are those of the views, the first a null.
fn has_bytes(bytes: &BinaryViewArray) -> bool {
    gives(bytes.iter().rev(), BYTES_BACK) && gives(bytes.values_iter(), BYTES)
}

/// Whether a mask over binary values makes the first a null.
fn is_masked(alloc: Global, bytes: &mut BinaryViewArray) -> Mem<bool> {
    let mask = Bitmap::from_bools(alloc, &[false, true, true])?;
    Ok(mask_first(bytes, mask) && has_bytes(bytes))
}

#[test]
fn binary_values_are_read(rt: HostRuntime) -> Result<(), Fail> {
    let mut bytes = unmasked(rt.alloc())?;
    let is_masked = is_masked(rt.alloc(), &mut bytes);
    drop(bytes);
    assert!(rt; is_masked?);
    Ok(())
}

impl<T: ViewType> Counted for BinaryViewArrayGeneric<T> {
    fn counts(&self) -> Counts {
        counts_of(self.len(), self.null_count(), self.validity().is_some())
    }
}

#[test]
fn views_go_through_the_bounds(rt: HostRuntime) -> Result<(), Fail> {
    let bits = [true, false, true];
    let array: BinaryViewArray = array_of(rt.alloc(), false, &views(), TEXT, &bits)?;
    let halves = has_halves(rt.alloc(), &array, 1, Some(((1, None), (2, Some(1)))));
    let past = has_halves(rt.alloc(), &array, 4, None);
    drop(array);
    assert!(rt; halves? && past?);
    Ok(())
}

#[test]
fn views_are_copied(rt: HostRuntime) -> Mem<()> {
    let view = View::new_inline(b"abc");
    let (first, second) = twice(rt.alloc(), &view)?;
    assert!(rt; first == view && second == view);
    Ok(())
}

/// A view, `count` times.
fn copies_of(alloc: Global, view: View, count: usize) -> Mem<Buffer<View>> {
    let mut views = Vec::new(alloc);
    views.resize(count, view)?;
    Buffer::from_vec(alloc, views)
}

/// A buffer of `count` letters, and a byte that is no UTF-8.
fn letters(alloc: Global, count: usize) -> Mem<Vec<Buffer<u8>>> {
    let mut bytes = Vec::new(alloc);
    bytes.resize(count, b'a')?;
    bytes.push(0xff)?;
    let buffer = Buffer::from_vec(alloc, bytes)?;
    Ok(vec![in alloc; buffer]?)
}

/// Strings of all the letters of one buffer, again and again.
fn overlapping(alloc: Global) -> PolarsResult<Utf8ViewArray> {
    let views = copies_of(alloc, View::new_long(10_000, *b"aaaa", 0, 0), 1_000)?;
    let buffers = letters(alloc, 10_000)?;
    Utf8ViewArray::try_new_in(alloc, ArrowDataType::Utf8View, views, buffers, None)
}

#[test]
fn strings_of_the_same_bytes_are_taken_beside_a_bad_byte(rt: HostRuntime) {
    assert!(rt; ends_as(overlapping(rt.alloc()), None));
}
