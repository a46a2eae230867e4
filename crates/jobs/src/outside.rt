//! Where bytes come from and where they go.
ghost use Rattle.std.specs.Prelude.{◌≡◌, ◌≤◌, ◌<◌, ℕ, List, [], Option, length, IfOk, IfSome, OnOk, OnErr, IsErrOf};
ghost use Rattle.std.specs.Io.{ReadsAtMost};
ghost use Rattle.std.specs.Io.KnownBytes.{ReadConsumes, WriteAppends, Consumes, Appends, IsAtEnd};
ghost use Rattle.jobs.specs.Causes.{Rose, HasCause, TakesSome, AppendsFront, TookMore};
ghost use Rattle.jobs.specs.Job.{limit};
ghost use Rattle.jobs.specs.declared.outside.ReadError.TheVariants.{OutOfMemory};

use std::alloc::{AllocError, Global};

/// The most bytes that a job may have.
pub const LIMIT: usize = 16_777_216;

/// A read failed.
#[derive(Drop)]
pub struct SourceFailed;

/// A write failed.
#[derive(Drop)]
pub struct SinkFailed;

/// Where a job's bytes come from.
pub trait Source {
    /// The bytes still to come, where it tells them.
    ghost left: { Self → Option (List ℕ) };

    /// How often it has failed.
    ghost faults: { Self → ℕ };

    /// Reads up to `buf.len()` bytes and returns how many; 0 only at the end or into an empty
    /// buffer.
    ///
    /// A call that fails leaves the bytes, and counts a fault.
    fn read(&mut self, buf: &mut [u8]) -> Result<usize, SourceFailed>
        ensures bound { ReadsAtMost result buf.new }
        ensures bytes { ReadConsumes (left self.old) (left self.new) result buf.new }
        ensures cause { HasCause (faults self.old) (faults self.new) result };
}

/// Where the answer's bytes go.
pub trait Sink {
    /// The bytes that it holds, where it tells them.
    ghost held: { Self → Option (List ℕ) };

    /// How often it has failed.
    ghost faults: { Self → ℕ };

    /// Writes a prefix of `bytes` and returns its length; at least 1 unless `bytes` is empty.
    ///
    /// A call that fails takes none, and counts a fault.
    fn write(&mut self, bytes: &[u8]) -> Result<usize, SinkFailed>
        ensures some { TakesSome result bytes.now }
        ensures bytes { WriteAppends (held self.old) (held self.new) result bytes.now }
        ensures cause { HasCause (faults self.old) (faults self.new) result };
}

/// Why a source wasn't read to its end.
#[derive(Drop)]
pub enum ReadError {
    /// It failed.
    Fault,
    /// It gave more bytes than a job may have.
    TooLong,
    /// Memory ran out.
    OutOfMemory,
}

impl From<AllocError> for ReadError {
    ghost from_gives = { λ _ e. e ≡ OutOfMemory };

    fn from(_: AllocError) -> ReadError {
        ReadError::OutOfMemory
    }
}

/// Reads a source to its end. TooLong only where it has more than `LIMIT` bytes, of which more than
/// `LIMIT` are then taken.
pub fn read_all<S: Source>(alloc: Global, source: &mut S) -> Result<Vec<u8>, ReadError>
    ensures whole { IfOk result (λ v. Consumes (S.left source.old) (S.left source.new) v.items
        × IsAtEnd (S.left source.new)) }
    ensures short { IfOk result (λ v. length v.items ≤ limit) }
    ensures long { IsErrOf result ReadError.TooLong
        → IfSome (S.left source.old) (λ bytes. limit < length bytes) }
    ensures past { IsErrOf result ReadError.TooLong
        → TookMore limit (S.left source.old) (S.left source.new) }
    ensures fault { IsErrOf result ReadError.Fault
        → Rose (S.faults source.old) (S.faults source.new) }
{
    let mut bytes = Vec::new(alloc);
    let mut piece = [0; 4096];
    loop {
        let Ok(count) = source.read(&mut piece) else {
            return Err(ReadError::Fault);
        };
        if count == 0 {
            return Ok(bytes);
        }
        if count > LIMIT - bytes.len() {
            return Err(ReadError::TooLong);
        }
        bytes.extend_from_slice(&piece[..count])?;
    }
}

/// Writes all of these bytes; of none nothing is written. A sink that failed holds a prefix of them
/// more.
pub fn write_all<K: Sink>(sink: &mut K, bytes: &[u8]) -> Result<(), SinkFailed>
    ensures whole { OnOk result (Appends (K.held sink.old) (K.held sink.new) bytes.now) }
    ensures part { OnErr result (AppendsFront (K.held sink.old) (K.held sink.new) bytes.now) }
    ensures none { bytes.now ≡ [] → sink.new ≡ sink.old }
    ensures cause { HasCause (K.faults sink.old) (K.faults sink.new) result }
{
    let mut done = 0;
    while done < bytes.len() {
        let count = sink.write(&bytes[done..])?;
        done += count;
    }
    Ok(())
}
