ghost use Rattle.std.specs.Prelude.{length};
ghost use Rattle.batch.specs.Loaded.{Loaded};

use columns::{ColumnEntry, read_batch_columns};
use fault::{BatchFault, Entry, Refusal};
use items::Reader;
use schema::{FieldEntry, read_schema};

// How many rows, fields and columns a batch has.
#[derive(Clone, Copy)]
pub(crate) struct Sizes {
    pub(crate) rows: usize,
    pub(crate) fields: usize,
    pub(crate) columns: usize,
}

// Reads a whole file into the tables.
pub(crate) fn load(
    bytes: &[u8],
    fields: &mut [FieldEntry],
    columns: &mut [ColumnEntry],
) -> Result<Sizes, BatchFault>
    ensures { Loaded (length fields.old) (length columns.old) bytes.now result fields.new columns.new }
{
    if fields.len() < 256 || columns.len() < 256 || bytes.len() > 1_048_576 {
        return Err(BatchFault::new(Refusal::Limit, 0, Entry::Head));
    }
    let mut reader = Reader::new(bytes);
    if reader.byte(Entry::Head)? != 1 {
        return Err(BatchFault::new(Refusal::Code, 0, Entry::Head));
    }
    let rows = reader.limited(65536, Entry::Head)? as usize;
    let fields_end = read_schema(&mut reader, fields)?;
    let columns_end = read_batch_columns(&mut reader, columns, rows)?;
    if reader.at < bytes.len() {
        return Err(BatchFault::new(Refusal::Leftover, reader.at, Entry::Head));
    }
    Ok(Sizes {
        rows,
        fields: fields_end - 1,
        columns: columns_end - 1,
    })
}
