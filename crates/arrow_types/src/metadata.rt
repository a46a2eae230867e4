ghost use Rattle.std.specs.Prelude.{◌≡◌, ◌++◌, ◌&&◌, IfOk, nat_eq};
ghost use Rattle.std.specs.Cmp.{partial_equiv_from_equiv, on_equiv, and_equiv};
ghost use Rattle.std.specs.Cmp.Lexicographic.{pointwise, nat_list_eq_equiv, lists_equiv, bytes_decides};
ghost use Rattle.std.specs.Hash as fed;
ghost use Rattle.std.specs.Hash.{items_Alike, and-Alike, on_Alike, same_Alike};
ghost use Rattle.std.specs.Option.{option_copied};
ghost use Rattle.arrow_types.specs.Metadata.{value_at, extension_of};

use crate::error::Mem;
use crate::text::PlSmallStr;
use std::alloc::{AllocError, Global};
use std::collections::BTreeMap;
use std::hash::{Hash, Hasher};
use std::marker::Model;
use std::rc::Rc;

/// What is noted beside a field, by keys.
pub type Metadata = BTreeMap<PlSmallStr, PlSmallStr>;

/// A map that its copies share. A contract sees its entries, in the order of the keys.
#[derive(Debug)]
pub struct SharedMetadata {
    map: Rc<Metadata>,
}

/// By hand, so that each place where a value may end has one call to prove, and not the drop of
/// every field.
impl Drop for SharedMetadata {
    fn drop(self) {
        let SharedMetadata { map: _ } = self;
    }
}

impl Model for SharedMetadata {
    ghost use Rattle.std.specs.Prelude.{List, ℕ};

    ghost Value = { List (List ℕ × List ℕ) };

    ghost view = { λ a. a.map.value.entries };
}

impl SharedMetadata {
    /// The map, to be shared.
    pub fn new(alloc: Global, map: Metadata) -> Mem<SharedMetadata>
        ensures { IfOk result (λ m. m ≡ map.entries) }
    {
        match Rc::new(alloc, map) {
            Ok(map) => Ok(SharedMetadata { map }),
            Err(_) => Err(AllocError),
        }
    }

    /// The map.
    pub fn get(&self) -> &Metadata
        ensures { result.now.entries ≡ self.now }
    {
        self.map.as_ref()
    }

    /// The same map, shared.
    pub fn try_clone(&self, _alloc: Global) -> Mem<SharedMetadata>
        ensures { IfOk result (λ m. m ≡ self.now) }
    {
        Ok(SharedMetadata {
            map: self.map.clone()?,
        })
    }
}

impl PartialEq for SharedMetadata {
    ghost eq = { pointwise (λ p q. pointwise nat_eq p.0 q.0 && pointwise nat_eq p.1 q.1) };

    ghost laws = { partial_equiv_from_equiv (lists_equiv (and_equiv
        (on_equiv (λ p. p.0) nat_list_eq_equiv)
        (on_equiv (λ p. p.1) nat_list_eq_equiv))) };

    fn eq(&self, other: &SharedMetadata) -> bool {
        self.map == other.map
    }
}

impl Eq for SharedMetadata {
    ghost laws = { lists_equiv (and_equiv
        (on_equiv (λ p. p.0) nat_list_eq_equiv)
        (on_equiv (λ p. p.1) nat_list_eq_equiv)) };
}

impl Hash for SharedMetadata {
    ghost hash_input = { fed.slice (λ p. fed.str p.0 ++ fed.str p.1) };

    ghost respects_eq = { (items_Alike (and-Alike
        (on_Alike (λ p. p.0) (same_Alike fed.str bytes_decides))
        (on_Alike (λ p. p.1) (same_Alike fed.str bytes_decides)))).fed };

    fn hash<H: Hasher>(&self, state: &mut H) {
        self.map.hash(state);
    }
}

const EXTENSION_NAME: &str = "ARROW:extension:name";

const EXTENSION_METADATA: &str = "ARROW:extension:metadata";

/// The name and the metadata of the extension that a field's metadata states; None where it names
/// none.
pub fn get_extension(
    alloc: Global,
    metadata: &Metadata,
) -> Mem<Option<(PlSmallStr, Option<PlSmallStr>)>>
    ensures { IfOk result (λ o. o ≡ extension_of metadata.now.entries) }
{
    match value_of(metadata, EXTENSION_NAME) {
        Some(name) => Ok(Some((
            name.try_clone(alloc)?,
            clone_value(alloc, value_of(metadata, EXTENSION_METADATA))?,
        ))),
        None => Ok(None),
    }
}

fn clone_value(alloc: Global, value: Option<&PlSmallStr>) -> Mem<Option<PlSmallStr>>
    ensures { IfOk result (λ o. o ≡ option_copied value.entry) }
{
    match value {
        Some(text) => Ok(Some(text.try_clone(alloc)?)),
        None => Ok(None),
    }
}

/// The value under a key.
pub(crate) fn value_of<'a>(metadata: &'a Metadata, key: &str) -> Option<&'a PlSmallStr>
    ensures { option_copied result ≡ value_at key.now metadata.now.entries }
{
    for (other, value) in metadata.iter() {
        if other.as_str() == key {
            return Some(value);
        }
    }
    None
}
