// A part of a file: some bytes, and how many times they stand there.
ghost use Rattle.std.specs.Prelude.{◌≡◌, ◌++◌, IfOk, OnOk};
ghost use Rattle.std.specs.List.{before_first, repeat};
ghost use Rattle.readcases.specs.Hex.{IsHex};
ghost use Rattle.readcases.specs.Parts.{is_star, part_count};

use crate::case_fault::CaseFault;
use crate::file::File;
use crate::hex;
use std::alloc::Global;

#[derive(Drop)]
pub struct Part {
    unit: Vec<u8>,
    count: usize,
}

impl Part {
    // A part as the table has it: `HEX`, or `HEX*COUNT`.
    pub fn parse(heap: Global, text: &str) -> Result<Part, CaseFault>
        ensures unit { IfOk result (λ p. IsHex (before_first is_star text.now) p.unit.items) }
        ensures count { IfOk result (λ p. p.count ≡ part_count text.now) }
    {
        let (digits, count) = text.split_once('*').unwrap_or((text, "1"));
        let unit = hex::bytes_of(heap, digits)?;
        let count = count.parse()?;
        Ok(Part { unit, count })
    }

    // Adds the bytes of the part to a file.
    pub fn put(&self, file: &mut File) -> Result<(), CaseFault>
        ensures { OnOk result (file.new.bytes.items ≡ file.old.bytes.items ++ repeat self.now.count self.now.unit.items) }
    {
        for _n in 0..self.count {
            file.append(self.unit.as_slice())?;
        }
        Ok(())
    }
}
