ghost use Rattle.std.specs.Prelude.{◌≡◌};
ghost use Rattle.fault.specs.Faults.{batch_fault_at, batch_fault_of, step_fault_at, step_fault_of};
ghost use Rattle.fault.specs.declared.faults.RunFault.TheVariants.{Batch, Step};

use crate::refusal::Refusal;

// Whose item was refused: the file's own numbers, a field or a column.
#[derive(Clone, Copy, Debug, PartialEq, Eq)]
pub enum Entry {
    Head,
    Field(usize),
    Column(usize),
}

// A refusal, and the byte at which the refused item begins.
#[derive(Clone, Copy, Debug, PartialEq, Eq)]
pub struct BytesFault {
    pub refusal: Refusal,
    pub byte: usize,
}

// A bytes fault whole, and the entry whose item it is.
#[derive(Clone, Copy, Debug, PartialEq, Eq)]
pub struct BatchFault {
    pub bytes: BytesFault,
    pub entry: Entry,
}

// A refused step: the column that was questioned, and the field.
#[derive(Clone, Copy, Debug, PartialEq, Eq)]
pub struct StepFault {
    pub refusal: Refusal,
    pub column: usize,
    pub field: usize,
}

// Why a run ended: a fault of the file or of a step, whole.
#[derive(Clone, Copy, Debug, PartialEq, Eq)]
pub enum RunFault {
    Batch(BatchFault),
    Step(StepFault),
}

impl BatchFault {
    // The item of `entry` that begins at `byte` is refused.
    pub fn new(refusal: Refusal, byte: usize, entry: Entry) -> Self
        ensures { batch_fault_of result ≡ batch_fault_at refusal byte entry }
    {
        BatchFault {
            bytes: BytesFault { refusal, byte },
            entry,
        }
    }
}

impl StepFault {
    // The step at this column and field is refused.
    pub fn new(refusal: Refusal, column: usize, field: usize) -> Self
        ensures { step_fault_of result ≡ step_fault_at refusal column field }
    {
        StepFault {
            refusal,
            column,
            field,
        }
    }
}

impl From<BatchFault> for RunFault {
    ghost from_gives = { λ f r. r ≡ Batch f };

    fn from(fault: BatchFault) -> RunFault {
        RunFault::Batch(fault)
    }
}

impl From<StepFault> for RunFault {
    ghost from_gives = { λ f r. r ≡ Step f };

    fn from(fault: StepFault) -> RunFault {
        RunFault::Step(fault)
    }
}
