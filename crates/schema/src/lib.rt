#![tactic(auto)]

mod code;
mod fields;
mod text;
mod types;

pub use fields::read_schema;
pub use types::{Field, FieldEntry, Kind, Primitive};
