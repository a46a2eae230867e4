//! Arrays of unions and dictionaries: structs around an `ArrayRef` of their layout.
#![tactic(auto)]

mod dictionary;
mod dictionary_iter;
mod dictionary_key;
mod dictionary_laws;
mod dictionary_value;
pub mod laws;
mod union;
mod union_iter;
mod union_laws;
mod union_parts;

pub use dictionary::DictionaryArray;
pub use dictionary_iter::{
    DictionaryIterTyped, DictionaryValuesIterTyped, KeysIter, KeysValuesIter,
};
pub use dictionary_key::DictionaryKey;
pub use dictionary_value::DictValue;
pub use union::UnionArray;
pub use union_iter::UnionIter;
