//! The job that bytes are: its column, and the array that the column selects.
ghost use Rattle.std.specs.Prelude.{◌≡◌, ◌≤◌, length, Some, IfOk, IfErr, IfSome};
ghost use Rattle.serde_json.specs.View.{view};
ghost use Rattle.arrow_types.specs.Seen.{seen};
ghost use Rattle.type_json.specs.TypeJson.{IsType};
ghost use Rattle.column_grammar.specs.Reads.{Column as Seen, selected_layout};
ghost use Rattle.column_read.specs.Arrays.{IsColumn};
ghost use Rattle.jobs.specs.Job.{IsInGrammar, IsJob, IsOf, limit, reading, whole_of};
ghost use Rattle.jobs.specs.Refusals.{refusal_of};
ghost use Rattle.jobs.specs.declared.command.Command.{Command};
ghost use Rattle.jobs.specs.declared.job.Refusal.TheVariants.{OutOfMemory};

use crate::depth::is_within;
use arrow_meaning::ArrayRef;
use column_read::{Column, LayoutError};
use serde_json::Value;
use std::alloc::{AllocError, Global};
use type_json::JsonError;

/// How deep the type of a column may be.
const DEEPEST: usize = 32;

/// Why a job has no answer.
#[derive(Drop)]
pub enum Refusal {
    /// The bytes are no text of a JSON value.
    BadText,
    /// The value is no job of the command's grammar.
    BadJob,
    /// A column's type is deeper than 32 levels.
    TooDeep,
    /// The column at this position is the first that isn't well formed, or whose slice passes its
    /// length.
    BadLayout(usize),
    /// The column isn't canonical.
    NotCanonical,
    /// A count or an offset of the answer passes its range.
    Overflow,
    /// Memory ran out.
    OutOfMemory,
}

impl From<AllocError> for Refusal {
    ghost from_gives = { λ _ e. e ≡ OutOfMemory };

    fn from(_: AllocError) -> Refusal {
        Refusal::OutOfMemory
    }
}

/// The JSON value of the bytes. BadText exactly where they have none.
#[tactic(auto, unfolding(crate::specs::Job::reading))]
fn parse(alloc: Global, bytes: &[u8]) -> Result<Value, Refusal>
    requires { length bytes.now ≤ limit }
    ensures ok { IfOk result (λ v. reading bytes.now ≡ Some (view v)) }
    ensures bad { IfErr result (λ e. (c : Command) → IfSome (refusal_of e)
        (λ v. IsOf c v bytes.now)) }
{
    match Value::from_slice(alloc, bytes) {
        Ok(value) => Ok(value),
        Err(error) => if error.is_memory() {
            Err(Refusal::OutOfMemory)
        } else {
            Err(Refusal::BadText)
        },
    }
}

/// The column that the bytes are. Each refusal comes exactly for its cause.
fn column_in(alloc: Global, bytes: &[u8]) -> Result<Column, Refusal>
    requires { length bytes.now ≤ limit }
    ensures is_type { IfOk result (λ k. IsType (seen k.dtype)) }
    ensures ok { IfOk result (λ column. (k : Seen) × IsColumn k column
        × ((c : Command) → IsInGrammar c bytes.now (whole_of k))) }
    ensures bad { IfErr result (λ e. (c : Command) → IfSome (refusal_of e)
        (λ v. IsOf c v bytes.now)) }
{
    let value = parse(alloc, bytes)?;
    let column = match Column::from_json(alloc, &value) {
        Ok(column) => column,
        Err(JsonError::BadValue) => return Err(Refusal::BadJob),
        Err(JsonError::OutOfMemory) => return Err(Refusal::OutOfMemory),
    };
    if !is_within(&column.dtype, DEEPEST) {
        return Err(Refusal::TooDeep);
    }
    Ok(column)
}

/// The array of the slots that a job's one column selects. Each refusal comes exactly for its
/// cause.
pub(crate) fn array_in(alloc: Global, bytes: &[u8]) -> Result<ArrayRef, Refusal>
    requires { length bytes.now ≤ limit }
    ensures ok { IfOk result (λ a. (k : Seen) × (a ≡ selected_layout k)
        × ((c : Command) → IsJob c bytes.now (whole_of k))) }
    ensures bad { IfErr result (λ e. (c : Command) → IfSome (refusal_of e)
        (λ v. IsOf c v bytes.now)) }
{
    let column = column_in(alloc, bytes)?;
    match column.into_array(alloc) {
        Ok(array) => Ok(array),
        Err(LayoutError::BadLayout) => Err(Refusal::BadLayout(0)),
        Err(LayoutError::OutOfMemory) => Err(Refusal::OutOfMemory),
    }
}
