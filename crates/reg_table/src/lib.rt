// The register table of a checked description: for each register its accessor path, address, width, directions, reset
// word, masks and fields; and the listing of it.
#![tactic(auto)]

mod calls;
mod fields;
mod listing;
mod masks;
mod member;
mod register;
mod row;
mod table_rows;

pub use listing::list_text;
pub use register::register_row;
pub use row::{Call, Calls, FieldDim, FieldRow, FieldRows, Row, RowPath, Table};
pub use table_rows::table;
