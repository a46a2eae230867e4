//! What holds of all columns that the program reads and writes.
ghost use Rattle.std.specs.Prelude.{◌≡◌, ◌↔◌, ◌≤◌, ℕ, List, [], ◌∷◌, ◌++◌, Some, codes};
ghost use Rattle.serde_json.specs.Data.{Data, depth};
ghost use Rattle.serde_json.specs.Written.{compact_text};
ghost use Rattle.arrow_types.specs.TypeData.{TypeData};
ghost use Rattle.type_json.specs.Texts.{IsTold};
ghost use Rattle.type_json.specs.TypeJson.{type_in, type_value, IsSpelled};
ghost use Rattle.arrow_types.specs.Depth.{depth_of};
ghost use Rattle.arrow_flat.specs.Slots.{Slot};
ghost use Rattle.arrow_layout.specs.Fits.{Fits, Small};
ghost use Rattle.arrow_layout.specs.Layouts.{Layout, type_of};
ghost use Rattle.arrow_layout.specs.Denote.{denote};
ghost use Rattle.arrow_layout.specs.Plain.{IsPlain};
ghost use Rattle.arrow_layout.specs.SlotsOf.{HasSlots};
ghost use Rattle.arrow_layout.specs.Canon.{canon};
ghost use Rattle.column_grammar.specs.Laws.{IsWritable};
ghost use Rattle.column_grammar.specs.Reads.{Column, IsValidColumn, column_of, selected_layout};
ghost use Rattle.column_grammar.specs.Writes.{column_text, column_value};
ghost use Rattle.jobs.specs.Commands.{command_of};
ghost use Rattle.jobs.specs.Job.{HasAnswer, IsJob, IsOf, Job, Verdict, answer_text, job_slots, job_type, reading, whole_of};
ghost use Rattle.jobs.specs.declared.command.Command.{Command};
ghost use Rattle.jobs.specs.declared.command.Command.TheVariants.{Canon, Check};
ghost use Rattle.jobs.specs.Laws.{IsTaken};

/// The texts of two canonical columns are equal exactly when their types and their slots are.
pub fn texts_tell_columns()
    ensures { (t u : TypeData) (s r : List Slot) → IsTaken t → IsTaken u
        → HasSlots t s → HasSlots u r → Fits (canon t s) → Fits (canon u r)
        → Small (canon t s) → Small (canon u r)
        → (column_text (canon t s) ≡ column_text (canon u r)) ↔ ((t ≡ u) × (s ≡ r)) }
{}

/// Two whole jobs that `canon` answers are answered by one text exactly when their types and the
/// slots that they take are equal.
pub fn texts_tell_jobs()
    ensures { (a b : List ℕ) (j k : Job) → IsJob Canon a j → IsJob Canon b k
        → HasAnswer Canon j → HasAnswer Canon k
        → (answer_text Canon j ≡ answer_text Canon k)
        ↔ ((job_type j ≡ job_type k) × (job_slots j ≡ job_slots k)) }
{}

/// A job of one column takes all slots that the column selects.
pub fn one_column_is_taken_whole()
    ensures of_type { (k : Column) → job_type (whole_of k) ≡ type_of (selected_layout k) }
    ensures slots { (k : Column) → IsValidColumn k
        → job_slots (whole_of k) ≡ denote (selected_layout k) }
{}

/// A command's words are one, and no other command's.
pub fn words_of_commands()
    ensures canon { command_of (codes "canon" ∷ []) ≡ Some Canon }
    ensures check { command_of (codes "check" ∷ []) ≡ Some Check }
{}

/// Bytes have one verdict of a command: an answer, or one cause for which they have none.
pub fn one_verdict()
    ensures { (c : Command) (bytes : List ℕ) (a b : Verdict) → IsOf c a bytes → IsOf c b bytes
        → a ≡ b }
{}

/// The text of a well-formed column of the grammar has a reading, and the reading is that column
/// where no bit stands before those of its bitmaps.
pub fn text_reads_back()
    ensures reading { (l : Layout) → IsWritable l → depth_of (type_of l) ≤ 32
        → reading (column_text l) ≡ Some (column_value l) }
    ensures column { (l : Layout) → IsWritable l → IsPlain l
        → column_of (column_value l) ≡ Some (record { layout = l; slice = None }) }
{}

/// The spelling of a type is read as exactly that type.
pub fn type_reads_back()
    ensures { (t : TypeData) → IsSpelled t → type_in (type_value t) ≡ Some t }
{}

/// The text of a value without floats, with a line feed, has a reading, and the reading is the
/// value.
pub fn value_reads_back()
    ensures { (d : Data) → IsTold d → depth d ≤ 127
        → reading (compact_text d ++ 10 ∷ []) ≡ Some d }
{}
