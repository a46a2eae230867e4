//! What a command answers to a job.
ghost use Rattle.std.specs.Prelude.{◌≡◌, ◌≤◌, ◌⊎◌, [], length, string_bytes, IfOk, IfErr, IfSome, IsErrOf};
ghost use Rattle.arrow_layout.specs.Canonical.{Canonical};
ghost use Rattle.arrow_layout.specs.Fits.{Fits};
ghost use Rattle.arrow_canon.specs.Canonical.{canonical_of};
ghost use Rattle.column_grammar.specs.Writes.{column_text};
ghost use Rattle.jobs.specs.Job.{HasAnswer, IsJob, IsOf, Job, answer_text, limit};
ghost use Rattle.jobs.specs.Refusals.{refusal_of};
ghost use Rattle.jobs.specs.declared.job.Refusal.TheVariants as refusal;

use crate::command::Command;
use crate::job::{Refusal, array_in};
use arrow_gather::{is_canonical, normalized};
use arrow_meaning::ArrayRef;
use arrow_types::GrowError;
use column_json::column_text;
use std::alloc::Global;

/// What a command writes for the bytes of a job. Each refusal comes exactly for its cause.
pub(crate) fn answer(alloc: Global, command: Command, bytes: &[u8]) -> Result<String, Refusal>
    requires { length bytes.now ≤ limit }
    ensures ok { IfOk result (λ text. (j : Job) × (IsJob command bytes.now j × HasAnswer command j)
        × (string_bytes text ≡ answer_text command j)) }
    ensures bad { IfErr result (λ e. IfSome (refusal_of e) (λ v. IsOf command v bytes.now)) }
{
    let array = array_in(alloc, bytes)?;
    match command {
        Command::Canon => canonical_text(alloc, &array),
        Command::Check => checked(alloc, &array),
    }
}

/// The text of the canonical array of an array's slots. Overflow exactly where it doesn't fit.
fn canonical_text(alloc: Global, array: &ArrayRef) -> Result<String, Refusal>
    ensures ok { IfOk result (λ text. Fits (canonical_of array.now)
        × (string_bytes text ≡ column_text (canonical_of array.now))) }
    ensures overflow { IsErrOf result refusal.Overflow → Fits (canonical_of array.now) → ⊥ }
    ensures causes { IfErr result (λ e. (e ≡ refusal.Overflow) ⊎ (e ≡ refusal.OutOfMemory)) }
{
    let canonical = match normalized(alloc, array) {
        Ok(canonical) => canonical,
        Err(GrowError::Overflow) => return Err(Refusal::Overflow),
        Err(GrowError::OutOfMemory) => return Err(Refusal::OutOfMemory),
    };
    let text = column_text(alloc, &canonical)?;
    Ok(text)
}

/// The empty text for an array that is canonical. NotCanonical exactly where it isn't.
fn checked(alloc: Global, array: &ArrayRef) -> Result<String, Refusal>
    ensures ok { IfOk result (λ text. Canonical array.now × (string_bytes text ≡ [])) }
    ensures not_canonical { IsErrOf result refusal.NotCanonical → Canonical array.now → ⊥ }
    ensures causes { IfErr result (λ e.
        (e ≡ refusal.NotCanonical) ⊎ (e ≡ refusal.OutOfMemory)) }
{
    if is_canonical(alloc, array)? {
        Ok(String::new(alloc))
    } else {
        Err(Refusal::NotCanonical)
    }
}
