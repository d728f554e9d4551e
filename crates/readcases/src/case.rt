// A case of the table: a file under a label.
ghost use Rattle.std.specs.Prelude.{◌≡◌, IfOk, string_bytes};
ghost use Rattle.std.specs.List.{before_first};
ghost use Rattle.readcases.specs.Cases.{is_blank, case_text};

use crate::case_fault::CaseFault;
use crate::file::File;
use crate::part::Part;
use std::alloc::{AllocError, Global};

#[derive(Drop)]
pub struct Case<'a> {
    label: &'a str,
    file: File,
}

impl<'a> Case<'a> {
    // The case that a line of the table has.
    pub fn parse(heap: Global, line: &'a str) -> Result<Case<'a>, CaseFault>
        ensures { IfOk result (λ c. c.label.now ≡ before_first is_blank line.now) }
    {
        let (label, parts) = line.split_once(' ').unwrap_or((line, ""));
        let file = joined(heap, parts)?;
        Ok(Case { label, file })
    }

    // The line `case LABEL`, and then what `batchinfo` prints for the file.
    pub fn report(&self, heap: Global) -> Result<String, AllocError>
        ensures { IfOk result (λ s. string_bytes s ≡ case_text self.now.label.now self.now.file.bytes.items) }
    {
        let label = self.label;
        let text = info::report(heap, self.file.as_slice())?;
        format!(in heap; "case {label}\n{text}")
    }
}

// The bytes of parts that blanks part.
fn joined(heap: Global, parts: &str) -> Result<File, CaseFault> {
    let mut file = File::new(heap);
    for part in parts.split(' ') {
        Part::parse(heap, part)?.put(&mut file)?;
    }
    Ok(file)
}
