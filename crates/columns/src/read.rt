ghost use Rattle.std.specs.Prelude.{◌≡◌, ℕ, ◌+◌, ◌≤◌, length, replicate, OnErr};
ghost use Rattle.meaning.specs.Columns as columns;
ghost use Rattle.meaning.specs.Forest.{Forest};
ghost use Rattle.meaning.specs.Model as model;
ghost use Rattle.items.specs.Cuts.{Fits};
ghost use Rattle.items.specs.Reading.{file};
ghost use Rattle.items.specs.Tables.{Enters, Fills};
ghost use Rattle.items.specs.Widths.{wide};
ghost use Rattle.columns.specs.Bodies.{EntersBody, children_from, list_from, map_from};
ghost use Rattle.columns.specs.Codes.{code_meant};
ghost use Rattle.columns.specs.Entries.{blank, column_table, columns_in};
ghost use Rattle.columns.specs.Heads.{column_from};
ghost use Rattle.columns.specs.Holders.{held_by};

use crate::body::{Body, read_stored, read_variable};
use crate::code::Code;
use crate::entry::{ColumnEntry, NO_BYTES};
use crate::head::read_head;
use crate::length::{Holder, Need};
use crate::slots::Slots;
use fault::{BatchFault, Entry, Refusal};
use items::{EntryReader, Reader, Width};

// The number of top columns of a batch, and its columns, each as long as there are rows. Gives the number that comes after them.
// A refused reading leaves the reader where it was and the table blank.
pub fn read_batch_columns(
    reader: &mut Reader,
    table: &mut [ColumnEntry],
    rows: usize,
) -> Result<usize, BatchFault>
    ensures fills { Fills column_table (λ (m : ℕ). m) (λ _ (cs : Forest model.Column). cs) (columns_in (length table.old) rows) 1 reader.old table.old result reader.new table.new }
    ensures emptied { OnErr result (table.new ≡ replicate (length table.old) blank) }
    ensures stays { OnErr result (reader.new.at ≡ reader.old.at) }
{
    let start = reader.at;
    let read = read_counted(reader, table, rows);
    if read.is_err() {
        reader.at = start;
        table.fill(ColumnEntry::BLANK);
    }
    read
}

// The same, with whatever a refusal leaves.
fn read_counted(
    reader: &mut Reader,
    table: &mut [ColumnEntry],
    rows: usize,
) -> Result<usize, BatchFault>
    ensures { Fills column_table (λ (m : ℕ). m) (λ _ (cs : Forest model.Column). cs) (columns_in (length table.old) rows) 1 reader.old table.old result reader.new table.new }
{
    if table.len() < 256 {
        return Err(BatchFault::new(Refusal::Limit, 0, Entry::Head));
    }
    let count = reader.number(Entry::Head)?;
    let batch = Holder::uncut(Need::Exact(rows), 0);
    let mut to = EntryReader {
        reader,
        table,
        next: 1,
    };
    read_columns(&mut to, 16, count, batch)?;
    Ok(to.next)
}

// Columns side by side, `count` of them, of which their holder asks so much; `level` levels are left for them.
#[cycle(columns)]
fn read_columns(
    to: &mut EntryReader<ColumnEntry>,
    level: usize,
    count: u32,
    holder: Holder,
) -> Result<(), BatchFault>
    requires { Fits (file to.old.reader.now) holder.cut }
    ensures { Enters column_table (λ _ (cs : Forest model.Column). cs) (held_by (file to.old.reader.now) level count holder to.old.next) to.old.next to.old result to.new }
{
    for _ in 0..count {
        if level == 0 || to.next > 256 {
            return Err(BatchFault::new(Refusal::Limit, to.reader.at, Entry::Column(to.next)));
        }
        read_column(to, level - 1, holder)?;
    }
    Ok(())
}

// The next column, and the columns that it holds at `level` levels below it.
#[cycle(columns)]
fn read_column(
    to: &mut EntryReader<ColumnEntry>,
    level: usize,
    holder: Holder,
) -> Result<(), BatchFault>
    requires { (to.old.next ≤ 256) × Fits (file to.old.reader.now) holder.cut }
    ensures { Enters column_table (λ _ (cs : Forest model.Column). cs) (column_from (file to.old.reader.now) level holder to.old.next) to.old.next to.old result to.new }
{
    let n = to.next;
    let head = read_head(to.reader, n, holder)?;
    let body = read_body(to, level, head.code, head.len)?;
    to.table[n - 1] = ColumnEntry {
        name: head.name,
        id_text: head.id_text,
        code: head.code,
        len: head.len.count,
        validity: head.validity,
        offsets: body.offsets,
        body: body.stored,
        end: to.next,
    };
    Ok(())
}

// What follows the head of the next column, of this code and length, with the columns that it holds.
#[cycle(columns)]
fn read_body(
    to: &mut EntryReader<ColumnEntry>,
    level: usize,
    code: Code,
    len: Slots,
) -> Result<Body, BatchFault>
    requires { to.old.next ≤ 256 }
    ensures { EntersBody (columns.body_of (columns.columns level) to.old.next len.count (code_meant code)) (to.old.next + 1) to.old result to.new }
{
    let n = to.next;
    to.next += 1;
    match code {
        Code::Boolean => read_stored(to.reader, n, len.bitmap_len()),
        Code::Int32 | Code::Float32 | Code::Date32 => { read_stored(to.reader, n, len.count * 4) }
        Code::Int64
        | Code::Float64
        | Code::Time64Microsecond
        | Code::TimestampMicrosecond
        | Code::TimestampNanosecond => read_stored(to.reader, n, len.count * 8),
        Code::FixedSizeBinary(width) => { read_stored(to.reader, n, len.count * width as usize) }
        Code::Utf8 | Code::Binary => read_variable(to.reader, n, Width::Four, len),
        Code::LargeUtf8 | Code::LargeBinary => { read_variable(to.reader, n, Width::Eight, len) }
        Code::Struct => {
            let count = to.reader.number(Entry::Column(n))?;
            read_children(to, level, count, Holder::uncut(Need::Exact(len.count), n))
        }
        Code::List => read_list(to, level, n, Width::Four, len),
        Code::LargeList => read_list(to, level, n, Width::Eight, len),
        Code::FixedSizeList(size) => {
            read_children(to, level, 1, Holder::uncut(Need::Parts(size, len.count), n))
        }
        Code::Map => read_map(to, level, n, len),
    }
}

// The columns that a column holds, `count` of them, as its body.
#[cycle(columns)]
fn read_children(
    to: &mut EntryReader<ColumnEntry>,
    level: usize,
    count: u32,
    holder: Holder,
) -> Result<Body, BatchFault>
    requires { Fits (file to.old.reader.now) holder.cut }
    ensures { EntersBody (children_from (file to.old.reader.now) level count holder to.old.next) to.old.next to.old result to.new }
{
    read_columns(to, level, count, holder)?;
    Ok(Body {
        offsets: holder.cut,
        stored: NO_BYTES,
    })
}

// The offsets and the child of list column `n`.
#[cycle(columns)]
fn read_list(
    to: &mut EntryReader<ColumnEntry>,
    level: usize,
    n: usize,
    width: Width,
    len: Slots,
) -> Result<Body, BatchFault>
    ensures { EntersBody (list_from (columns.columns level) n to.old.next (wide width) len.count) to.old.next to.old result to.new }
{
    let offsets = to.reader.offsets(width, len.count + 1, n)?;
    let holder = Holder {
        need: Need::Free,
        cut: offsets,
        owner: n,
    };
    read_children(to, level, 1, holder)
}

// The offsets, the key column and the value column of map column `n`. The value column has the key column's length.
#[cycle(columns)]
fn read_map(
    to: &mut EntryReader<ColumnEntry>,
    level: usize,
    n: usize,
    len: Slots,
) -> Result<Body, BatchFault>
    ensures { EntersBody (map_from (columns.columns level) n to.old.next len.count) to.old.next to.old result to.new }
{
    let offsets = to.reader.offsets(Width::Four, len.count + 1, n)?;
    let keys = Holder {
        need: Need::Free,
        cut: offsets,
        owner: n,
    };
    let key = to.next;
    read_columns(to, level, 1, keys)?;
    let pairs = to.table[key - 1].len;
    let values = Holder {
        need: Need::Exact(pairs),
        ..keys
    };
    read_children(to, level, 1, values)
}
