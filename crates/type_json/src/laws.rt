//! What holds of the spellings of all types.
ghost use Rattle.std.specs.Prelude.{◌≡◌, ◌<◌, ◌≤◌, ◌*◌, ◌++◌, [], ◌∷◌, Some, IsUtf8};
ghost use Rattle.serde_json.specs.Data.{Data, depth};
ghost use Rattle.serde_json.specs.Read.{read};
ghost use Rattle.serde_json.specs.Written.{compact_text};
ghost use Rattle.arrow_types.specs.Depth.{depth_of};
ghost use Rattle.arrow_types.specs.TypeData.{TypeData};
ghost use Rattle.type_json.specs.Texts.{IsTold};
ghost use Rattle.type_json.specs.TypeJson.{type_in, type_value, IsSpelled, IsType};

/// The spelling of a type is read as the type, and nests less than three levels for each of the
/// type's.
pub fn type_reads_back()
    ensures spelled { (t : TypeData) → IsSpelled t → type_in (type_value t) ≡ Some t }
    ensures depth { (t : TypeData) → IsSpelled t → depth (type_value t) < 3 * depth_of t }
{}

/// The compact text of a spelling, followed by a line feed, is UTF-8 and is read as the spelling.
pub fn text_reads_back()
    ensures utf8 { (t : TypeData) → IsSpelled t → IsType t
        → IsUtf8 (compact_text (type_value t) ++ 10 ∷ []) }
    ensures value { (t : TypeData) → IsSpelled t → IsType t → depth_of t ≤ 32
        → read (compact_text (type_value t) ++ 10 ∷ []) ≡ Some (type_value t) }
{}

/// The compact text of a value without floats, followed by a line feed, is UTF-8 and is read as the
/// value.
pub fn value_reads_back()
    ensures utf8 { (d : Data) → IsTold d → IsUtf8 (compact_text d ++ 10 ∷ []) }
    ensures value { (d : Data) → IsTold d → depth d ≤ 127
        → read (compact_text d ++ 10 ∷ []) ≡ Some d }
{}
