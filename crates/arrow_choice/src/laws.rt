//! Laws of unions, of dictionaries and of their keys.
pub use crate::dictionary_laws::{
    key_of_its_position, position_of_its_key, well_formed_dictionaries_are_accepted,
};
pub use crate::union_laws::{
    slices_are_indexed, unions_are_accepted, unions_are_well_formed, unions_denote,
};
