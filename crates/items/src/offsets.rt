ghost use Rattle.std.specs.Prelude.{◌≡◌, ℕ, ◌+◌, ◌*◌, length, IfOk, if◌then◌else◌, None, nat_le};
ghost use Rattle.meaning.specs.Columns as columns;
ghost use Rattle.fault.specs.Faults.{entry_of};
ghost use Rattle.items.specs.declared.reader.Offsets.{Offsets as Off};
ghost use Rattle.items.specs.Cuts.{offset_after, offsets_of, Standing};
ghost use Rattle.items.specs.Reading.{Reads, Takes, file};
ghost use Rattle.items.specs.Widths.{wide};

use crate::reader::{Offsets, Reader};
use crate::width::Width;
use fault::{BatchFault, Entry, Refusal};

impl Reader<'_> {
    // One offset, which may not be negative or below `last`.
    fn offset(&mut self, width: Width, last: u64, entry: Entry) -> Result<u64, BatchFault>
        ensures { Reads (λ (v : ℕ). v) (offset_after (entry_of entry) (wide width) last) self.old result self.new }
    {
        let start = self.at;
        self.exactly(width.bytes(), entry)?;
        let value = width.word(&self.bytes[start..self.at]);
        if value >= width.negative() || value < last {
            return Err(BatchFault::new(Refusal::Offset, start, entry));
        }
        Ok(value)
    }

    // The offsets of column `n`, `count` of them, none negative or below the one before it.
    pub fn offsets(&mut self, width: Width, count: usize, n: usize) -> Result<Offsets, BatchFault>
        ensures takes { Takes (offsets_of (file self.old)) (columns.offsets (wide width) n count 0) self.old result self.new }
        ensures stand { IfOk result (Standing (file self.old) width count) }
        ensures ends { IfOk result (λ (o : Off). o.start + wide o.width * o.count ≡ self.new.at) }
    {
        let start = self.at;
        let mut last = 0;
        for _ in 0..count {
            let read = self.offset(width, last, Entry::Column(n));
            if read.is_err() {
                self.at = start;
            }
            last = read?;
        }
        Ok(Offsets {
            width,
            count,
            start,
        })
    }

    // The byte of the first of these offsets that is past `limit`; none where they do not all stand in the file.
    pub fn first_past(&self, offsets: Offsets, limit: u64) -> Option<usize>
        ensures { result ≡ (if nat_le (offsets.start + wide offsets.width * offsets.count) (length (file self.now)) then columns.past (offsets_of (file self.now) offsets) limit else None) }
    {
        let Offsets {
            width,
            count,
            start,
        } = offsets;
        let size = width.bytes();
        let end = size.checked_mul(count)?.checked_add(start)?;
        let past = self
            .bytes
            .get(start..end)?
            .chunks_exact(size)
            .position(|word| width.word(word) > limit)?;
        Some(start + size * past)
    }
}
