//! Arrays of the children of structs and unions, as they are read one after another.
ghost use Rattle.std.specs.Prelude.{◌≡◌, option_map, OnOk};
ghost use Rattle.column_read.specs.Arrays.{and_array};

use arrow_meaning::ArrayRef;
use arrow_types::Mem;

/// Adds what was read of one more child: none are left where one isn't well formed.
pub(crate) fn push_child(children: &mut Option<Vec<ArrayRef>>, child: Option<ArrayRef>) -> Mem<()>
    ensures { OnOk result (option_map (λ v. v.items) children.new
        ≡ and_array child (option_map (λ v. v.items) children.old)) }
{
    let Some(child) = child else {
        *children = None;
        return Ok(());
    };
    if let Some(arrays) = children {
        arrays.push(child)?;
    }
    Ok(())
}
