//! Standard input and output, or any reader and writer of std. They report nothing of what they
//! hold.
ghost use Rattle.std.specs.Prelude.{◌≡◌, None};

use crate::outside::{Sink, SinkFailed, Source, SourceFailed};
use std::io::{Read, Write};

/// Standard input, or any reader of std.
#[derive(Drop)]
pub struct StdSource<R> {
    inner: R,
    faults: u64,
}

impl<R: Read> StdSource<R> {
    ghost use Rattle.jobs.specs.Standard.{std_source_faults};

    /// Reads from this reader.
    pub fn new(inner: R) -> StdSource<R>
        ensures { std_source_faults result ≡ 0 }
    {
        StdSource { inner, faults: 0 }
    }
}

impl<R: Read> Source for StdSource<R> {
    ghost use Rattle.jobs.specs.Standard.{std_source_faults};

    ghost left = { λ _. None };

    ghost faults = { std_source_faults };

    fn read(&mut self, buf: &mut [u8]) -> Result<usize, SourceFailed> {
        match self.inner.read(buf) {
            Ok(count) => Ok(count),
            Err(_) => {
                self.faults = self.faults.saturating_add(1);
                Err(SourceFailed)
            }
        }
    }
}

/// Standard output, or any writer of std.
#[derive(Drop)]
pub struct StdSink<W> {
    inner: W,
    faults: u64,
}

impl<W: Write> StdSink<W> {
    ghost use Rattle.jobs.specs.Standard.{std_sink_faults};

    /// Writes to this writer, and flushes it after each write.
    pub fn new(inner: W) -> StdSink<W>
        ensures { std_sink_faults result ≡ 0 }
    {
        StdSink { inner, faults: 0 }
    }
}

impl<W: Write> Sink for StdSink<W> {
    ghost use Rattle.jobs.specs.Standard.{std_sink_faults};

    ghost held = { λ _. None };

    ghost faults = { std_sink_faults };

    fn write(&mut self, bytes: &[u8]) -> Result<usize, SinkFailed> {
        if bytes.is_empty() {
            return Ok(0);
        }
        let written = match self.inner.write(bytes) {
            Ok(count) if count > 0 => match self.inner.flush() {
                Ok(()) => Some(count),
                Err(_) => None,
            },
            _ => None,
        };
        if let Some(count) = written {
            Ok(count)
        } else {
            self.faults = self.faults.saturating_add(1);
            Err(SinkFailed)
        }
    }
}
