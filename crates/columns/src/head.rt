ghost use Rattle.std.specs.Prelude.{IfOk};
ghost use Rattle.std.specs.Fn.{FnOnceReturnsAtMut};
ghost use Rattle.fault.specs.Faults.{entry_of};
ghost use Rattle.items.specs.Cuts.{Fits};
ghost use Rattle.items.specs.Reading.{Reads, file};
ghost use Rattle.columns.specs.Heads.{Follows, HeadInside, head_meant, headed};

use crate::code::{Code, read_code};
use crate::length::{Holder, read_length};
use crate::slots::Slots;
use fault::{BatchFault, Entry};
use items::{Reader, Span};

// What stands before a column's body.
#[derive(Clone, Copy)]
pub(crate) struct Head {
    pub(crate) name: Span,
    pub(crate) id_text: Option<Span>,
    pub(crate) code: Code,
    pub(crate) len: Slots,
    pub(crate) validity: Option<Span>,
}

// The head of column `n`, of which its holder asks so much.
pub(crate) fn read_head(reader: &mut Reader, n: usize, holder: Holder) -> Result<Head, BatchFault>
    requires { Fits (file reader.old) holder.cut }
    ensures reads { Reads (head_meant (file reader.old)) (headed (file reader.old) holder n) reader.old result reader.new }
    ensures inside { IfOk result (HeadInside (file reader.old)) }
{
    let entry = Entry::Column(n);
    let name = reader.text(entry)?;
    let id_text = optionally(reader, entry, |reader| reader.text(entry))?;
    let code = read_code(reader, n)?;
    let len = read_length(reader, n, holder)?;
    let validity = optionally(
        reader,
        entry,
        |reader| reader.exactly(len.bitmap_len(), entry),
    )?;
    Ok(Head {
        name,
        id_text,
        code,
        len,
        validity,
    })
}

// What follows a flag, if the flag says that there is any.
fn optionally<F: FnOnce(&mut Reader) -> Result<Span, BatchFault>>(
    reader: &mut Reader,
    entry: Entry,
    read: F,
) -> Result<Option<Span>, BatchFault>
    requires { F.IsAlwaysCallable read }
    ensures { Follows (FnOnceReturnsAtMut F.FnOnce read) (entry_of entry) reader.old result reader.new }
{
    if !reader.flag(entry)? {
        return Ok(None);
    }
    Ok(Some(read(reader)?))
}
