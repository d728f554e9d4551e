ghost use Rattle.std.specs.Prelude.{◌≡◌, ◌+◌, ◌-◌, ◌<◌, ◌≤◌, ◌⊎◌, length, slice_get, IfSome, MatchOption, Some};
ghost use Rattle.batch.specs.Batches.{model};
ghost use Rattle.batch.specs.Views.{HasWholeOffsets, column_seen, field_seen, maybe_part_of, numbered, offsets_seen};
ghost use Rattle.columns.specs.Entries.{MaybeInside};
ghost use Rattle.items.specs.Cuts.{Fits, offsets_of};
ghost use Rattle.items.specs.Reading.{Inside, part as part_of};
ghost use Rattle.meaning.specs.Columns.{values};
ghost use Rattle.meaning.specs.Forest.{find, size};
ghost use Rattle.std.specs.Option.{option_map};

use crate::batch::Batch;
use crate::view::{Column, Field, OffsetBuffer};
use items::{Offsets, Span};

impl<'a> Batch<'a> {
    // The number of rows.
    pub fn rows(&self) -> usize
        ensures { result ≡ (model self.now).rows }
    {
        self.sizes.rows
    }

    // The number of fields, at all levels.
    pub fn field_count(&self) -> usize
        ensures { result ≡ size (model self.now).fields }
    {
        self.sizes.fields
    }

    // The number of columns, at all levels.
    pub fn column_count(&self) -> usize
        ensures { result ≡ size (model self.now).columns }
    {
        self.sizes.columns
    }

    // Field `n`, if there is one: they are numbered from 1 in file order.
    pub fn field(&self, n: usize) -> Option<Field<'a>>
        ensures { option_map field_seen result ≡ numbered n (find n 1 (model self.now).fields) }
    {
        let entry = entry_at(&self.tables.fields, self.sizes.fields, n)?;
        let name = part(self.bytes, entry.name);
        Some(Field {
            id: entry.id,
            required: entry.required,
            name,
            kind: entry.kind,
            end: entry.end,
        })
    }

    // Column `n`, if there is one: they are numbered from 1 in file order.
    pub fn column(&self, n: usize) -> Option<Column<'a>>
        ensures shows { option_map column_seen result ≡ numbered n (find n 1 (model self.now).columns) }
        ensures whole { IfSome result (λ c. HasWholeOffsets c.offsets) }
    {
        let entry = entry_at(&self.tables.columns, self.sizes.columns, n)?;
        let name = part(self.bytes, entry.name);
        let id_text = maybe_part(self.bytes, entry.id_text);
        let validity = maybe_part(self.bytes, entry.validity);
        let offsets = offset_buffer(self.bytes, entry.offsets);
        let body = part(self.bytes, entry.body);
        Some(Column {
            name,
            id_text,
            code: entry.code,
            len: entry.len,
            validity,
            offsets,
            body,
            end: entry.end,
        })
    }
}

// The entry with number `n` of the first `count`, which are numbered from 1.
fn entry_at<E: Copy>(table: &[E], count: usize, n: usize) -> Option<E>
    requires { count ≤ length table.now }
    ensures { MatchOption result ((n ≡ 0) ⊎ (count < n)) (λ e. ((1 ≤ n) × (n ≤ count)) × (slice_get table.now (n - 1) ≡ Some e)) }
{
    table[..count].get(n.checked_sub(1)?).copied()
}

// A part of the file.
fn part(bytes: &[u8], span: Span) -> &[u8]
    requires { Inside bytes.now span }
    ensures { result.now ≡ part_of bytes.now span }
{
    let start = span.start;
    let end = start + span.len;
    &bytes[start..end]
}

// A part of the file, if there is one.
fn maybe_part(bytes: &[u8], span: Option<Span>) -> Option<&[u8]>
    requires { MaybeInside bytes.now span }
    ensures { maybe_part_of result ≡ option_map (part_of bytes.now) span }
{
    span.map(|span| part(bytes, span))
}

// The bytes of offsets that stand in the file.
fn offset_buffer(bytes: &[u8], offsets: Offsets) -> OffsetBuffer<'_>
    requires { Fits bytes.now offsets }
    ensures shows { offsets_seen result ≡ values (offsets_of bytes.now offsets) }
    ensures whole { HasWholeOffsets result }
{
    let width = offsets.width;
    let span = Span {
        start: offsets.start,
        len: width.bytes() * offsets.count,
    };
    OffsetBuffer {
        width,
        bytes: part(bytes, span),
    }
}
