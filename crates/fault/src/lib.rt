#![tactic(auto)]

mod faults;
mod refusal;
mod text;

pub use faults::{BatchFault, BytesFault, Entry, RunFault, StepFault};
pub use refusal::Refusal;
