#![tactic(auto)]

mod blank;
mod entries;
mod item;
mod numeral;
mod offsets;
mod reader;
mod width;

pub use blank::fill;
pub use entries::EntryReader;
pub use reader::{Offsets, Reader, Span};
pub use width::Width;
