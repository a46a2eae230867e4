//! Views: the sixteen bytes of a slot.
ghost use Rattle.std.specs.Prelude.{◌≡◌, ◌+◌, ◌<◌, ◌≤◌, length as count};
ghost use Rattle.arrow_flat.specs.Natives.{octets, AreBytes};
ghost use Rattle.arrow_flat.specs.Views.{long, inline_view, view_length};
ghost use Rattle.arrow_views.specs.ViewParts.{number_at, view_of, bytes_of, buffer_of, offset_of, IsPlaced};

use arrow_flat::TryClone;
use arrow_types::Mem;
use std::alloc::Global;
use std::marker::Model;

/// The sixteen bytes of a slot: the length of its value, then twelve bytes that begin with a value
/// of at most twelve, or else the first four bytes of the value, the number of its buffer and its
/// offset there. Each number has four bytes, the lowest first.
///
/// The Arrow Columnar Format's variable-size binary view layout.
#[derive(Clone, Copy, PartialEq, Eq)]
pub struct View {
    bytes: [u8; 16],
}

impl Model for View {
    ghost use Rattle.std.specs.Prelude.{◌≡◌, length};
    ghost use Rattle.std.proofs.Common.{ap};
    ghost use Rattle.arrow_flat.specs.Views as views;
    ghost use Rattle.arrow_flat.specs.ViewCode.{view_code};
    ghost use Rattle.arrow_flat.specs.Natives.{AreBytes};
    ghost use Rattle.arrow_views.specs.ViewParts.{view_of, bytes_of};
    ghost use Rattle.arrow_views.specs.ViewBytes.{bytes_back};

    ghost Value = { views.View };

    ghost coded = { view_code };

    ghost view = { λ v. view_of v.bytes };

    ghost invariant = { λ v. (length v.bytes ≡ 16) × AreBytes v.bytes };

    ghost inverse = { λ v. record { bytes = bytes_of v } };

    ghost inverse_ok = { λ v h.
        ap (λ bytes. record { bytes = bytes }) (bytes_back v.bytes h.0 h.1) };
}

impl View {
    /// The view of these bytes.
    pub fn from_bytes(bytes: [u8; 16]) -> View
        ensures { result ≡ view_of bytes }
    {
        invariant(&bytes);
        View { bytes }
    }

    /// The view of a value of at most twelve bytes, which it holds.
    pub fn new_inline(value: &[u8]) -> View
        requires { count value.now ≤ 12 }
        ensures { result ≡ inline_view (octets value.now) }
    {
        let mut bytes = [0; 16];
        bytes[0] = value.len() as u8;
        bytes[4..4 + value.len()].copy_from_slice(value);
        View { bytes }
    }

    /// The view of a longer value: its length, its first four bytes, the number of its buffer and
    /// where it begins there.
    pub fn new_long(length: u32, prefix: [u8; 4], buffer: u32, offset: u32) -> View
        requires { 12 < length }
        ensures { result ≡ long length prefix buffer offset }
    {
        let length = length.to_le_bytes();
        let buffer = buffer.to_le_bytes();
        let offset = offset.to_le_bytes();
        View {
            bytes: [
                length[0], length[1], length[2], length[3], prefix[0], prefix[1], prefix[2],
                prefix[3], buffer[0], buffer[1], buffer[2], buffer[3], offset[0], offset[1],
                offset[2], offset[3],
            ],
        }
    }

    /// The bytes.
    pub fn as_bytes(&self) -> &[u8; 16]
        ensures bytes { result.now ≡ bytes_of self.now }
        ensures placed { IsPlaced self.now }
    {
        &self.bytes
    }

    /// The length of the value, in bytes.
    pub fn length(&self) -> u32
        ensures value { result ≡ view_length self.now }
        ensures placed { IsPlaced self.now }
    {
        number(&self.bytes, 0)
    }

    /// The number of the buffer of a value of more than twelve bytes; of another view the number
    /// that stands there.
    pub fn buffer(&self) -> u32
        ensures { result ≡ buffer_of self.now }
    {
        number(&self.bytes, 8)
    }

    /// Where a value of more than twelve bytes begins in its buffer; of another view the number
    /// that stands there.
    pub fn offset(&self) -> u32
        ensures { result ≡ offset_of self.now }
    {
        number(&self.bytes, 12)
    }
}

/// For proofs alone: bytes are below 256.
fn invariant(bytes: &[u8])
    ensures { AreBytes bytes.now }
{}

/// The number of the four bytes from `at` on, the lowest first.
fn number(bytes: &[u8; 16], at: usize) -> u32
    requires { at + 4 ≤ count bytes.now }
    ensures { result ≡ number_at at bytes.now }
{
    u32::from_le_bytes([bytes[at], bytes[at + 1], bytes[at + 2], bytes[at + 3]])
}

impl TryClone for View {
    fn try_clone(&self, _alloc: Global) -> Mem<View> {
        Ok(*self)
    }
}
