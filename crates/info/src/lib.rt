#![tactic(auto)]

mod describe;
mod lines;
mod listing;
mod nulls;
mod quoted;

pub use describe::report;
