// The lines of text that say why a call was refused.
ghost use Rattle.meaning.specs.Text.{entry_text, batch_fault_line, step_fault_line};
ghost use Rattle.std.specs.Prelude.{Some};
ghost use Rattle.fault.specs.Faults.{entry_of, batch_fault_of, step_fault_of, run_fault_line};

use crate::faults::{BatchFault, Entry, RunFault, StepFault};
use std::error::Error;
use std::fmt;

// As `head 0`, `field 2` or `column 3`.
impl fmt::Display for Entry {
    ghost output = { λ e. Some (entry_text (entry_of e)) };

    fn fmt<W: fmt::Write>(&self, f: &mut fmt::Formatter<W>) -> fmt::Result {
        match *self {
            Entry::Head => write!(f, "head 0"),
            Entry::Field(number) => write!(f, "field {number}"),
            Entry::Column(number) => write!(f, "column {number}"),
        }
    }
}

// As `refused 4 byte 0 head 0`.
impl fmt::Display for BatchFault {
    ghost output = { λ f. Some (batch_fault_line (batch_fault_of f)) };

    fn fmt<W: fmt::Write>(&self, f: &mut fmt::Formatter<W>) -> fmt::Result {
        let number = self.bytes.refusal.number();
        let byte = self.bytes.byte;
        let entry = self.entry;
        write!(f, "refused {number} byte {byte} {entry}")
    }
}

// As `refused 10 field 2 column 1`.
impl fmt::Display for StepFault {
    ghost output = { λ f. Some (step_fault_line (step_fault_of f)) };

    fn fmt<W: fmt::Write>(&self, f: &mut fmt::Formatter<W>) -> fmt::Result {
        let number = self.refusal.number();
        let StepFault { column, field, .. } = *self;
        write!(f, "refused {number} field {field} column {column}")
    }
}

// The line of the fault that ended the run.
impl fmt::Display for RunFault {
    ghost output = { λ f. Some (run_fault_line f) };

    fn fmt<W: fmt::Write>(&self, f: &mut fmt::Formatter<W>) -> fmt::Result {
        match self {
            RunFault::Batch(fault) => write!(f, "{fault}"),
            RunFault::Step(fault) => write!(f, "{fault}"),
        }
    }
}

impl Error for BatchFault {}

impl Error for StepFault {}

impl Error for RunFault {}
