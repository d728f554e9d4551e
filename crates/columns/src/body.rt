ghost use Rattle.items.specs.Widths.{wide};
ghost use Rattle.columns.specs.Bodies.{ReadsBody, stored_from, variable_from};

use crate::entry::NO_OFFSETS;
use crate::slots::Slots;
use fault::{BatchFault, Entry, Refusal};
use items::{Offsets, Reader, Span, Width};

// What follows a column's head: its offsets and its stored bytes.
#[derive(Clone, Copy)]
pub(crate) struct Body {
    pub(crate) offsets: Offsets,
    pub(crate) stored: Span,
}

// The body of column `n`: so many bytes.
pub(crate) fn read_stored(reader: &mut Reader, n: usize, bytes: usize) -> Result<Body, BatchFault>
    ensures { ReadsBody (stored_from n bytes) reader.old result reader.new }
{
    let stored = reader.exactly(bytes, Entry::Column(n))?;
    Ok(Body {
        offsets: NO_OFFSETS,
        stored,
    })
}

// The body of column `n`: offsets and the bytes that they cut, which none of them may pass.
pub(crate) fn read_variable(
    reader: &mut Reader,
    n: usize,
    width: Width,
    len: Slots,
) -> Result<Body, BatchFault>
    ensures { ReadsBody (variable_from n (wide width) len.count) reader.old result reader.new }
{
    let entry = Entry::Column(n);
    let offsets = reader.offsets(width, len.count + 1, n)?;
    let size = reader.number(entry)?;
    if let Some(byte) = reader.first_past(offsets, u64::from(size)) {
        return Err(BatchFault::new(Refusal::Offset, byte, entry));
    }
    let stored = reader.exactly(size as usize, entry)?;
    Ok(Body { offsets, stored })
}
