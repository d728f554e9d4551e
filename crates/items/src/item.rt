ghost use Rattle.std.specs.Prelude.{◌≡◌, ℕ, Bool, true, ℤ};
ghost use Rattle.meaning.specs.Items as items;
ghost use Rattle.fault.specs.Faults.{entry_of};
ghost use Rattle.items.specs.Reading.{Takes, TakesPart, file, id_from, rest};

use crate::numeral::number_at;
use crate::reader::{Reader, Span};
use fault::{BatchFault, Entry, Refusal};

impl<'a> Reader<'a> {
    // A reader before the first byte of a file.
    pub fn new(bytes: &'a [u8]) -> Self
        ensures { (rest result ≡ record { bytes = bytes.entry.now; at = 0 }) × (file result ≡ bytes.entry.now) }
    {
        Reader { bytes, at: 0 }
    }
}

impl Reader<'_> {
    // The next `n` bytes as one item. Here and below, a reader that refuses an item stays where it was.
    pub fn exactly(&mut self, n: usize, entry: Entry) -> Result<Span, BatchFault>
        ensures { TakesPart (items.exactly (entry_of entry) n) self.old result self.new }
    {
        let start = self.at;
        if self.bytes.len() - start < n {
            return Err(BatchFault::new(Refusal::Cut, start, entry));
        }
        self.at = start + n;
        Ok(Span { start, len: n })
    }

    // The next byte, whatever it is.
    pub fn byte(&mut self, entry: Entry) -> Result<u8, BatchFault>
        ensures { Takes (λ (b : ℕ). b) (items.byte (entry_of entry) (λ _. true)) self.old result self.new }
    {
        let Some(b) = self.bytes.get(self.at) else {
            return Err(BatchFault::new(Refusal::Cut, self.at, entry));
        };
        self.at += 1;
        Ok(*b)
    }

    // A byte that is 0 or 1.
    pub fn flag(&mut self, entry: Entry) -> Result<bool, BatchFault>
        ensures { Takes (λ (b : Bool). b) (items.flag (entry_of entry)) self.old result self.new }
    {
        let start = self.at;
        let b = self.byte(entry)?;
        if b > 1 {
            self.at = start;
            return Err(BatchFault::new(Refusal::Code, start, entry));
        }
        Ok(b == 1)
    }

    // A number, in groups of seven bits.
    pub fn number(&mut self, entry: Entry) -> Result<u32, BatchFault>
        ensures { Takes (λ (v : ℕ). v) (items.number (entry_of entry)) self.old result self.new }
    {
        let start = self.at;
        match number_at(&self.bytes[start..]) {
            Ok((value, len)) => {
                self.at = start + len;
                Ok(value)
            }
            Err(why) => Err(BatchFault::new(why.into(), start, entry)),
        }
    }

    // A number that may not pass a limit.
    pub fn limited(&mut self, most: u32, entry: Entry) -> Result<u32, BatchFault>
        ensures { Takes (λ (v : ℕ). v) (items.limited (entry_of entry) most) self.old result self.new }
    {
        let start = self.at;
        let v = self.number(entry)?;
        if v > most {
            self.at = start;
            return Err(BatchFault::new(Refusal::Limit, start, entry));
        }
        Ok(v)
    }

    // A name or an id text: its number and its bytes are one item, so that a fault of either begins at the number.
    pub fn text(&mut self, entry: Entry) -> Result<Span, BatchFault>
        ensures { TakesPart (items.text (entry_of entry)) self.old result self.new }
    {
        let start = self.at;
        let len = self.number(entry)? as usize;
        let first = self.at;
        if self.bytes.len() - first < len {
            self.at = start;
            return Err(BatchFault::new(Refusal::Cut, start, entry));
        }
        if len > 255 {
            self.at = start;
            return Err(BatchFault::new(Refusal::Limit, start, entry));
        }
        self.at = first + len;
        Ok(Span { start: first, len })
    }

    // A field's id: four bytes, signed.
    pub fn id(&mut self, entry: Entry) -> Result<i32, BatchFault>
        ensures { Takes (λ (z : ℤ). z) (id_from (entry_of entry)) self.old result self.new }
    {
        let Some(bytes) = self.bytes[self.at..].first_chunk::<4>() else {
            return Err(BatchFault::new(Refusal::Cut, self.at, entry));
        };
        self.at += 4;
        Ok(i32::from_le_bytes(*bytes))
    }
}
