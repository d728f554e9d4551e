ghost use Rattle.std.specs.Prelude.{◌≡◌};
ghost use Rattle.meaning.specs.Columns as columns;
ghost use Rattle.items.specs.Cuts.{Fits, offsets_of};
ghost use Rattle.items.specs.Reading.{Reads, file};
ghost use Rattle.columns.specs.Entries.{no_offsets};
ghost use Rattle.columns.specs.Holders.{need_of};
ghost use Rattle.columns.specs.declared.slots.Slots.{Slots as Slo};

use crate::entry::NO_OFFSETS;
use crate::slots::Slots;
use fault::{BatchFault, Entry, Refusal};
use items::{Offsets, Reader};

// The length that a holder asks of a child: any, exactly so many slots, or enough for so many parts of a size.
#[derive(Clone, Copy)]
pub(crate) enum Need {
    Free,
    Exact(usize),
    Parts(u32, usize),
}

impl Need {
    // Whether a length meets it. No part has size 0: so many slots are then enough for none.
    pub(crate) fn met_by(self, len: usize) -> bool
        ensures { result ≡ columns.meets (need_of self) len }
    {
        match self {
            Need::Free => true,
            Need::Exact(k) => len == k,
            Need::Parts(0, k) => k == 0,
            Need::Parts(size, k) => len / size as usize == k,
        }
    }
}

// What a column's holder asks of it: a length, and that no offset of the holder's passes it.
#[derive(Clone, Copy)]
pub(crate) struct Holder {
    pub(crate) need: Need,
    pub(crate) cut: Offsets,
    pub(crate) owner: usize,
}

impl Holder {
    // A holder that has no offsets.
    pub(crate) fn uncut(need: Need, owner: usize) -> Self
        ensures { result ≡ record { need = need; cut = no_offsets; owner = owner } }
    {
        Holder {
            need,
            cut: NO_OFFSETS,
            owner,
        }
    }
}

// The length of column `n`: its limit is tested, then the offsets of its holder, then what the holder asks.
pub(crate) fn read_length(
    reader: &mut Reader,
    n: usize,
    holder: Holder,
) -> Result<Slots, BatchFault>
    requires { Fits (file reader.old) holder.cut }
    ensures { Reads (λ (s : Slo). s.count) (columns.length_of n (need_of holder.need) (offsets_of (file reader.old) holder.cut) holder.owner) reader.old result reader.new }
{
    let start = reader.at;
    let len = reader.limited(65536, Entry::Column(n))?;
    if let Some(byte) = reader.first_past(holder.cut, u64::from(len)) {
        return Err(BatchFault::new(Refusal::Offset, byte, Entry::Column(holder.owner)));
    }
    let count = len as usize;
    if !holder.need.met_by(count) {
        return Err(BatchFault::new(Refusal::Length, start, Entry::Column(n)));
    }
    Ok(Slots { count })
}
