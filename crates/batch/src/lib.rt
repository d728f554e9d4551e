#![tactic(auto)]

mod batch;
mod entries;
mod load;
mod read;
mod tables;
mod view;

pub use batch::{Batch, Unread};
pub use tables::Tables;
pub use view::{Column, Field, OffsetBuffer};
