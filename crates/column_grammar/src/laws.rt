//! What holds of the texts of all columns. The contract of each function is the law; its body does
//! nothing.
ghost use Rattle.std.specs.Prelude.{◌≡◌, ◌≤◌, Some, None, IsUtf8};
ghost use Rattle.serde_json.specs.Read.{read};
ghost use Rattle.arrow_types.specs.Depth.{depth_of};
ghost use Rattle.arrow_layout.specs.Layouts.{Layout, type_of};
ghost use Rattle.arrow_layout.specs.Plain.{IsPlain};
ghost use Rattle.column_grammar.specs.Laws.{IsWritable};
ghost use Rattle.column_grammar.specs.Reads.{column_of};
ghost use Rattle.column_grammar.specs.Writes.{column_value, column_text};

/// The value of a column without leading bits is read as that column, with no slice.
pub fn column_reads_back()
    ensures { (l : Layout) → IsWritable l → IsPlain l
        → column_of (column_value l) ≡ Some (record { layout = l; slice = None }) }
{}

/// The text of a column whose type is at most 32 deep is UTF-8 and is read as the column's value.
pub fn text_reads_back()
    ensures utf8 { (l : Layout) → IsWritable l → depth_of (type_of l) ≤ 32
        → IsUtf8 (column_text l) }
    ensures value { (l : Layout) → IsWritable l → depth_of (type_of l) ≤ 32
        → read (column_text l) ≡ Some (column_value l) }
{}

/// Columns without leading bits that have one text are one column.
pub fn text_tells_column()
    ensures { (a b : Layout) → IsWritable a → IsWritable b
        → depth_of (type_of a) ≤ 32 → depth_of (type_of b) ≤ 32 → IsPlain a → IsPlain b
        → column_text a ≡ column_text b → a ≡ b }
{}
