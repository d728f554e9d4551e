// Slots that are null.
ghost use Rattle.std.specs.Prelude.{◌≡◌, ◌≤◌, ◌<◌, ◌+◌, ◌*◌, ◌^◌, ◌-◌, length, sum_by};
ghost use Rattle.meaning.specs.Slots.{bit};
ghost use Rattle.info.specs.Lines.{nulls, unset_in, unset_from};
ghost use Rattle.batch.specs.Views.{column_of};

use batch::Column;

// How many of the column's slots are null.
pub(crate) fn count_nulls(column: Column) -> usize
    ensures { result ≡ nulls (column_of column.entry) }
{
    let Some(validity) = column.validity else {
        return 0;
    };
    let whole = validity.len().min(column.len / 8);
    let in_bytes = unset_in_bytes(&validity[..whole]);
    let in_rest = unset_in_slots(validity, 8 * whole, column.len);
    in_bytes + in_rest
}

// How many bits of the bytes are not set.
fn unset_in_bytes(bytes: &[u8]) -> usize
    requires { 8 * length bytes.now < 2 ^ 64 }
    ensures { result ≡ sum_by unset_in bytes.now }
{
    bytes.iter().map(|&byte| unset_in_byte(byte)).sum()
}

// How many bits of the byte are not set.
fn unset_in_byte(byte: u8) -> usize
    ensures { result ≡ unset_in byte }
{
    byte.count_zeros() as usize
}

// How many of the bits from `first` up to `end` are not set.
fn unset_in_slots(bits: &[u8], first: usize, end: usize) -> usize
    requires { first ≤ end }
    ensures { result ≡ unset_from bits.now first (end - first) }
{
    (first..end)
        .map(|slot| usize::from(!is_set(bits, slot)))
        .sum()
}

// Bits run from bit 0 of the first byte; past the last byte none is set.
fn is_set(bits: &[u8], index: usize) -> bool
    ensures { result ≡ bit bits.now index }
{
    bits.get(index / 8)
        .is_some_and(|byte| byte >> (index % 8) & 1 == 1)
}
