#![tactic(auto)]

mod body;
mod code;
mod entry;
mod head;
mod length;
mod read;
mod slots;
mod text;

pub use code::Code;
pub use entry::{Column, ColumnEntry};
pub use read::read_batch_columns;
