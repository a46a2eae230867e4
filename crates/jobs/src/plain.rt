//! A source and a sink over memory that never fail while there is room.
ghost use Rattle.std.specs.Prelude.{◌≡◌, ◌≤◌, ◌+◌, ◌-◌, ◌^◌, ◌==◌, ◌&&◌, not, min, [], length, Some, IsOk, IfOk, OnOk, OnErr, is_err};
ghost use Rattle.std.specs.Io.{ReadsAtMost};
ghost use Rattle.std.specs.Io.KnownBytes.{ReadConsumes, WriteAppends};
ghost use Rattle.jobs.specs.Causes.{HasCause, TakesSome};

use crate::memory::{give, put};
use crate::outside::{Sink, SinkFailed, Source, SourceFailed};

/// Bytes that are given at once, as far as the buffer goes.
pub struct PlainSource {
    bytes: Vec<u8>,
    at: usize,
    ghost within: { at ≤ length bytes.items },
}

/// By hand, so that each place where a value may end has one call to prove, and not the drop of
/// every field.
impl Drop for PlainSource {
    fn drop(self) {
        let PlainSource { bytes: _, at: _ } = self;
    }
}

impl PlainSource {
    ghost use Rattle.jobs.specs.Plain.{plain_left};

    /// Gives these bytes, and never fails.
    pub fn new(bytes: Vec<u8>) -> PlainSource
        ensures { plain_left result ≡ bytes.items }
    {
        PlainSource { bytes, at: 0 }
    }
}

impl Source for PlainSource {
    ghost use Rattle.jobs.specs.Plain.{plain_left};

    ghost left = { λ s. Some (plain_left s) };

    ghost faults = { λ _. 0 };

    fn read(&mut self, buf: &mut [u8]) -> Result<usize, SourceFailed>
        ensures bound { ReadsAtMost result buf.new }
        ensures bytes { ReadConsumes (Some (plain_left self.old)) (Some (plain_left self.new))
            result buf.new }
        ensures cause { HasCause 0 0 result }
        ensures always { IsOk result }
        ensures gives { IfOk result (λ n. n
            ≡ min (length buf.old) (length (plain_left self.old))) }
    {
        let count = give(self.bytes.as_slice(), self.at, usize::MAX, buf);
        self.at += count;
        Ok(count)
    }
}

/// A buffer that is written over from its start.
pub struct PlainSink {
    buffer: Vec<u8>,
    len: usize,
    faults: u64,
    ghost within: { len ≤ length buffer.items },
}

/// By hand, so that each place where a value may end has one call to prove, and not the drop of
/// every field.
impl Drop for PlainSink {
    fn drop(self) {
        let PlainSink {
            buffer: _,
            len: _,
            faults: _,
        } = self;
    }
}

impl PlainSink {
    ghost use Rattle.jobs.specs.Plain.{plain_held, plain_room, plain_faults};

    /// Writes over this buffer, from its start. Takes no memory.
    pub fn new(room: Vec<u8>) -> PlainSink
        ensures held { plain_held result ≡ [] }
        ensures room { plain_room result ≡ length room.items }
        ensures faults { plain_faults result ≡ 0 }
    {
        PlainSink {
            buffer: room,
            len: 0,
            faults: 0,
        }
    }

    /// The part written so far.
    pub fn held(&self) -> &[u8]
        ensures { result.now ≡ plain_held self.now }
    {
        &self.buffer[..self.len]
    }
}

impl Sink for PlainSink {
    ghost use Rattle.jobs.specs.Plain.{plain_held, plain_room, plain_faults};

    ghost held = { λ s. Some (plain_held s) };

    ghost faults = { plain_faults };

    fn write(&mut self, bytes: &[u8]) -> Result<usize, SinkFailed>
        ensures some { TakesSome result bytes.now }
        ensures bytes { WriteAppends (Some (plain_held self.old)) (Some (plain_held self.new))
            result bytes.now }
        ensures cause { HasCause (plain_faults self.old) (plain_faults self.new) result }
        // It fails exactly where no room is left for a piece, and counts each failure.
        ensures fails { is_err result
            ≡ ((plain_room self.old == 0) && not (length bytes.now == 0)) }
        ensures faults { OnErr result
            (plain_faults self.new ≡ min (plain_faults self.old + 1) (2 ^ 64 - 1)) }
        ensures same { OnOk result (plain_faults self.new ≡ plain_faults self.old) }
        ensures room { plain_room self.new + length (plain_held self.new)
            ≡ plain_room self.old + length (plain_held self.old) }
        // A longer piece is taken in part.
        ensures takes { IfOk result (λ n. n ≡ min (length bytes.now) (plain_room self.old)) }
    {
        if self.len == self.buffer.len() && !bytes.is_empty() {
            self.faults = self.faults.saturating_add(1);
            return Err(SinkFailed);
        }
        let count = put(&mut self.buffer, self.len, usize::MAX, bytes);
        self.len += count;
        Ok(count)
    }
}
