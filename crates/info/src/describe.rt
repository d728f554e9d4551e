// What is printed of a file.
ghost use Rattle.std.specs.Prelude.{◌≡◌, IfOk, Ok, string_bytes};
ghost use Rattle.meaning.specs.File.{decode};
ghost use Rattle.batch.specs.Batches.{model};
ghost use Rattle.info.specs.Lines.{report_text};

use crate::listing::{Columns, Fields, put_lines};
use batch::{Batch, Tables};
use std::alloc::{AllocError, Global};

// The rows, fields and columns of a batch file, or the line that says why it is refused.
pub fn report(heap: Global, bytes: &[u8]) -> Result<String, AllocError>
    ensures { IfOk result (λ s. string_bytes s ≡ report_text (decode bytes.now)) }
{
    let tables = Tables::new(heap)?;
    match Batch::read(bytes, tables) {
        Ok(batch) => report_batch(heap, &batch),
        Err(unread) => format!(in heap; "{}\n", unread.fault),
    }
}

// The lines of a batch in hand.
fn report_batch(heap: Global, batch: &Batch) -> Result<String, AllocError>
    ensures { IfOk result (λ s. string_bytes s ≡ report_text (Ok (model batch.now))) }
{
    let rows = batch.rows();
    let fields_end = batch.field_count() + 1;
    let columns_end = batch.column_count() + 1;
    let mut out = format!(in heap; "rows {rows}\n")?;
    put_lines(&Fields(batch), &mut out, 1, 1, fields_end)?;
    put_lines(&Columns(batch), &mut out, 1, 1, columns_end)?;
    Ok(out)
}
