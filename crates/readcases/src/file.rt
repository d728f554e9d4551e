// The bytes of a case's file.
ghost use Rattle.std.specs.Prelude.{◌≡◌, ◌≤◌, [], ◌++◌, OnOk, OnErr, vec_len};

use crate::case_fault::CaseFault;
use std::alloc::Global;

// One byte more than a batch file may have, so that a file which is too long can be a case.
const MOST: usize = 1_048_577;

#[derive(Drop)]
pub struct File {
    bytes: Vec<u8>,
    ghost small: { vec_len bytes ≤ 1048577 },
}

impl File {
    // A file of no bytes.
    pub fn new(heap: Global) -> File
        ensures { result.bytes.items ≡ [] }
    {
        File {
            bytes: Vec::new(heap),
        }
    }

    // Adds bytes at the end. More than a file may have are refused.
    pub fn append(&mut self, more: &[u8]) -> Result<(), CaseFault>
        ensures ok { OnOk result (self.new.bytes.items ≡ self.old.bytes.items ++ more.now) }
        ensures err { OnErr result (self.new.bytes.items ≡ self.old.bytes.items) }
    {
        if more.len() > MOST - self.bytes.len() {
            return Err(CaseFault::TooLong);
        }
        self.bytes.extend_from_slice(more)?;
        Ok(())
    }

    // The bytes themselves.
    pub fn as_slice(&self) -> &[u8]
        ensures { result.now ≡ self.now.bytes.items }
    {
        self.bytes.as_slice()
    }
}
