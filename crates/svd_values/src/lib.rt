// What the texts of a description's elements mean: numbers, the words of the schema, places of bits
// and indexes of dimensions; and how the elements are named in Rust: slots, accessors and the calls
// of enumerated values.
#![tactic(auto)]

mod call_name;
mod index;
mod meaning;
mod numeral;
mod place;
mod schema_word;
mod table;

pub use call_name::{accessor, is_call, slot_name, variant_call};
pub use index::{DimIndex, IndexFault, Words, dim_index};
pub use meaning::{
    bit_range_has_one_meaning, dim_index_has_one_meaning, names_are_identifiers,
    number_has_one_meaning, value_bits_has_one_meaning,
};
pub use numeral::{number, value_bits};
pub use place::{Place, bit_range};
pub use schema_word::{
    Access, ReadAction, Usage, WriteKind, access_word, read_action, usage_word, write_kind,
};
