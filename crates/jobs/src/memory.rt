//! A source and a sink over memory, which give and take small pieces and fail at chosen calls.
ghost use Rattle.std.specs.Prelude.{◌≡◌, ◌≤◌, ◌<◌, ◌^◌, ◌+◌, ◌-◌, ◌==◌, ◌||◌, ◌&&◌, not, min, [], ◌++◌, length, take, drop, Some, IfOk, OnOk, OnErr, is_err};
ghost use Rattle.std.specs.List.{list_any};
ghost use Rattle.std.specs.Io.{ReadsAtMost};
ghost use Rattle.std.specs.Io.KnownBytes.{ReadConsumes, WriteAppends};
ghost use Rattle.jobs.specs.Causes.{HasCause, TakesSome, Moves};

use crate::outside::{Sink, SinkFailed, Source, SourceFailed};
use arrow_types::Mem;
use std::alloc::Global;

/// Copies the bytes from `at` on into the buffer, at most `most` of them, and returns how many.
pub(crate) fn give(bytes: &[u8], at: usize, most: usize, buf: &mut [u8]) -> usize
    requires within { at ≤ length bytes.now }
    requires some { 0 < most }
    ensures count { result ≡ min (min most (length buf.old)) (length bytes.now - at) }
    ensures fits { at + result ≤ length bytes.now }
    ensures moved { Moves (drop at bytes.now) (drop (at + result) bytes.now) result buf.new }
{
    let count = most.min(buf.len()).min(bytes.len() - at);
    buf[..count].copy_from_slice(&bytes[at..at + count]);
    count
}

/// Copies bytes into the buffer from its place `len` on, at most `most` of them, and returns how
/// many.
pub(crate) fn put(buffer: &mut Vec<u8>, len: usize, most: usize, bytes: &[u8]) -> usize
    requires { len ≤ length buffer.old.items }
    ensures count { result ≡ min (min most (length bytes.now)) (length buffer.old.items - len) }
    ensures size { length buffer.new.items ≡ length buffer.old.items }
    ensures put { take (len + result) buffer.new.items
        ≡ take len buffer.old.items ++ take result bytes.now }
{
    let count = most.min(bytes.len()).min(buffer.len() - len);
    buffer[len..len + count].copy_from_slice(&bytes[..count]);
    count
}

/// Bytes that are given in pieces, with calls that fail by their number.
pub struct MemorySource {
    bytes: Vec<u8>,
    at: usize,
    piece: usize,
    fails: Vec<usize>,
    calls: usize,
    faults: u64,
    ghost within: { at ≤ length bytes.items },
    ghost gives: { 0 < piece },
}

/// By hand, so that each place where a value may end has one call to prove, and not the drop of
/// every field.
impl Drop for MemorySource {
    fn drop(self) {
        let MemorySource {
            bytes: _,
            at: _,
            piece: _,
            fails: _,
            calls: _,
            faults: _,
        } = self;
    }
}

impl MemorySource {
    ghost use Rattle.jobs.specs.Memory.{source_left, source_faults, source_calls};
    ghost use Rattle.jobs.specs.Memory.{source_piece, source_fails};

    /// Gives these bytes, at most `piece` at a call, and fails at the calls whose numbers, counted
    /// from 1, stand in `fails`.
    pub fn new(alloc: Global, bytes: &[u8], piece: usize, fails: &[usize]) -> Mem<MemorySource>
        requires { 0 < piece }
        ensures left { IfOk result (λ s. source_left s ≡ bytes.now) }
        ensures faults { IfOk result (λ s. source_faults s ≡ 0) }
        ensures calls { IfOk result (λ s. source_calls s ≡ 0) }
        ensures piece { IfOk result (λ s. source_piece s ≡ piece) }
        ensures fails { IfOk result (λ s. source_fails s ≡ fails.now) }
    {
        let bytes = bytes.to_vec(alloc)?;
        let fails = fails.to_vec(alloc)?;
        Ok(MemorySource {
            bytes,
            at: 0,
            piece,
            fails,
            calls: 0,
            faults: 0,
        })
    }
}

impl Source for MemorySource {
    ghost use Rattle.jobs.specs.Memory.{source_left, source_faults, source_calls};
    ghost use Rattle.jobs.specs.Memory.{source_piece, source_fails};

    ghost left = { λ s. Some (source_left s) };

    ghost faults = { source_faults };

    fn read(&mut self, buf: &mut [u8]) -> Result<usize, SourceFailed>
        ensures bound { ReadsAtMost result buf.new }
        ensures bytes { ReadConsumes (Some (source_left self.old)) (Some (source_left self.new))
            result buf.new }
        ensures cause { HasCause (source_faults self.old) (source_faults self.new) result }
        // The number of a call stays at its last value once that is reached.
        ensures counts { source_calls self.new ≡ min (source_calls self.old + 1) (2 ^ 64 - 1) }
        // It fails exactly at the calls that were named, and counts each failure.
        ensures fails { is_err result
            ≡ list_any (λ n. n == source_calls self.new) (source_fails self.old) }
        ensures faults { OnErr result
            (source_faults self.new ≡ min (source_faults self.old + 1) (2 ^ 64 - 1)) }
        ensures gives { IfOk result (λ n. n
            ≡ min (min (source_piece self.old) (length buf.old)) (length (source_left self.old))) }
        ensures same { OnOk result (source_faults self.new ≡ source_faults self.old) }
        ensures pieces { source_piece self.new ≡ source_piece self.old }
        ensures named { source_fails self.new ≡ source_fails self.old }
    {
        self.calls = self.calls.saturating_add(1);
        if self.fails.contains(&self.calls) {
            self.faults = self.faults.saturating_add(1);
            return Err(SourceFailed);
        }
        let count = give(self.bytes.as_slice(), self.at, self.piece, buf);
        self.at += count;
        Ok(count)
    }
}

/// Room for bytes that are taken in pieces, with calls that fail by their number.
pub struct MemorySink {
    buffer: Vec<u8>,
    len: usize,
    piece: usize,
    fails: Vec<usize>,
    calls: usize,
    faults: u64,
    ghost within: { len ≤ length buffer.items },
    ghost takes: { 0 < piece },
}

/// By hand, so that each place where a value may end has one call to prove, and not the drop of
/// every field.
impl Drop for MemorySink {
    fn drop(self) {
        let MemorySink {
            buffer: _,
            len: _,
            piece: _,
            fails: _,
            calls: _,
            faults: _,
        } = self;
    }
}

impl MemorySink {
    ghost use Rattle.jobs.specs.Memory.{sink_held, sink_faults, sink_calls};
    ghost use Rattle.jobs.specs.Memory.{sink_piece, sink_fails, sink_room};

    /// Takes at most `piece` bytes at a call, `room` in all, and fails at the calls whose numbers,
    /// counted from 1, stand in `fails`.
    ///
    /// The memory for all the room is taken here.
    pub fn new(alloc: Global, room: usize, piece: usize, fails: &[usize]) -> Mem<MemorySink>
        requires { 0 < piece }
        ensures held { IfOk result (λ s. sink_held s ≡ []) }
        ensures room { IfOk result (λ s. sink_room s ≡ room) }
        ensures faults { IfOk result (λ s. sink_faults s ≡ 0) }
        ensures calls { IfOk result (λ s. sink_calls s ≡ 0) }
        ensures piece { IfOk result (λ s. sink_piece s ≡ piece) }
        ensures fails { IfOk result (λ s. sink_fails s ≡ fails.now) }
    {
        let buffer = vec![in alloc; 0; room]?;
        let fails = fails.to_vec(alloc)?;
        Ok(MemorySink {
            buffer,
            len: 0,
            piece,
            fails,
            calls: 0,
            faults: 0,
        })
    }

    /// The bytes taken so far.
    pub fn held(&self) -> &[u8]
        ensures { result.now ≡ sink_held self.now }
    {
        &self.buffer[..self.len]
    }
}

impl Sink for MemorySink {
    ghost use Rattle.jobs.specs.Memory.{sink_held, sink_faults, sink_calls};
    ghost use Rattle.jobs.specs.Memory.{sink_piece, sink_fails, sink_room};

    ghost held = { λ s. Some (sink_held s) };

    ghost faults = { sink_faults };

    fn write(&mut self, bytes: &[u8]) -> Result<usize, SinkFailed>
        ensures some { TakesSome result bytes.now }
        ensures bytes { WriteAppends (Some (sink_held self.old)) (Some (sink_held self.new))
            result bytes.now }
        ensures cause { HasCause (sink_faults self.old) (sink_faults self.new) result }
        // The number of a call stays at its last value once that is reached.
        ensures counts { sink_calls self.new ≡ min (sink_calls self.old + 1) (2 ^ 64 - 1) }
        // It fails exactly at the calls that were named and where no room is left for a piece, and
        // counts each failure.
        ensures fails { is_err result
            ≡ (list_any (λ n. n == sink_calls self.new) (sink_fails self.old)
            || ((sink_room self.old == 0) && not (length bytes.now == 0))) }
        ensures faults { OnErr result
            (sink_faults self.new ≡ min (sink_faults self.old + 1) (2 ^ 64 - 1)) }
        ensures takes { IfOk result (λ n. n
            ≡ min (min (sink_piece self.old) (length bytes.now)) (sink_room self.old)) }
        ensures same { OnOk result (sink_faults self.new ≡ sink_faults self.old) }
        ensures room { sink_room self.new + length (sink_held self.new)
            ≡ sink_room self.old + length (sink_held self.old) }
        ensures pieces { sink_piece self.new ≡ sink_piece self.old }
        ensures named { sink_fails self.new ≡ sink_fails self.old }
    {
        self.calls = self.calls.saturating_add(1);
        let room = self.buffer.len() - self.len;
        if self.fails.contains(&self.calls) || (room == 0 && !bytes.is_empty()) {
            self.faults = self.faults.saturating_add(1);
            return Err(SinkFailed);
        }
        let count = put(&mut self.buffer, self.len, self.piece, bytes);
        self.len += count;
        Ok(count)
    }
}
