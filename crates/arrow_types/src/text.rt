ghost use Rattle.std.specs.Prelude.{◌≡◌, IfOk, refl, Some, nat_eq};
ghost use Rattle.std.specs.Ordering.{nat_cmp};
ghost use Rattle.std.specs.Cmp.{partial_equiv_from_equiv};
ghost use Rattle.std.specs.Cmp.Lexicographic.{pointwise, slice_cmp, nat_list_eq_equiv, nat_list_cmp_total, texts_ties, texts_po};
ghost use Rattle.std.proofs.Common.{rules};
ghost use Rattle.std.specs.Cmp.Rules.{hashing};
ghost use Rattle.std.specs.Hash as fed;

use crate::error::Mem;
use std::alloc::Global;
use std::cmp::Ordering;
use std::hash::{Hash, Hasher};
use std::marker::Model;
use std::rc::RcStr;

/// A text that its copies share. A contract sees its bytes.
#[derive(Debug)]
pub struct PlSmallStr {
    text: RcStr,
}

/// By hand, so that each place where a value may end has one call to prove, and not the drop of
/// every field.
impl Drop for PlSmallStr {
    fn drop(self) {
        let PlSmallStr { text: _ } = self;
    }
}

impl Model for PlSmallStr {
    ghost use Rattle.std.specs.Prelude.{List, ℕ};
    ghost use Rattle.std.specs.Rc.{rc_str_bytes};

    ghost Value = { List ℕ };

    ghost view = { λ a. rc_str_bytes a.text };
}

impl PlSmallStr {
    /// The text, in memory of its own.
    pub fn try_from_str(alloc: Global, text: &str) -> Mem<PlSmallStr>
        ensures { IfOk result (λ s. s ≡ text.now) }
    {
        Ok(PlSmallStr {
            text: RcStr::from_str(alloc, text)?,
        })
    }

    /// The text.
    pub fn as_str(&self) -> &str
        ensures { result.now ≡ self.now }
    {
        self.text.as_str()
    }

    /// The same text, shared.
    pub fn try_clone(&self, _alloc: Global) -> Mem<PlSmallStr>
        ensures { IfOk result (λ s. s ≡ self.now) }
    {
        Ok(PlSmallStr {
            text: self.text.clone()?,
        })
    }
}

impl PartialEq for PlSmallStr {
    ghost eq = { pointwise nat_eq };

    ghost laws = { partial_equiv_from_equiv nat_list_eq_equiv };

    fn eq(&self, other: &PlSmallStr) -> bool {
        self.text == other.text
    }
}

impl Eq for PlSmallStr {
    ghost laws = { nat_list_eq_equiv };
}

impl PartialOrd for PlSmallStr {
    ghost partial_cmp = { λ x y. Some (slice_cmp nat_cmp x y) };

    ghost laws = { texts_po };

    fn partial_cmp(&self, other: &PlSmallStr) -> Option<Ordering> {
        Some(self.cmp(other))
    }
}

impl Ord for PlSmallStr {
    ghost cmp = { slice_cmp nat_cmp };

    ghost total = { nat_list_cmp_total };

    ghost matches_partial_cmp = { λ x y. refl };

    ghost matches_eq = { texts_ties };

    fn cmp(&self, other: &PlSmallStr) -> Ordering {
        self.text.cmp(&other.text)
    }
}

impl Hash for PlSmallStr {
    ghost hash_input = { fed.str };

    ghost respects_eq = { Prim.search (hashing, rules) };

    fn hash<H: Hasher>(&self, state: &mut H) {
        self.text.hash(state);
    }
}
