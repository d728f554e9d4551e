ghost use Rattle.std.specs.Prelude.{IfOk, vec_len};
ghost use Rattle.batch.specs.Blank.{Blank};

use columns::ColumnEntry;
use items::fill;
use schema::FieldEntry;
use std::alloc::{AllocError, Global};

// The work tables that reading fills: an entry for each field and for each column.
#[derive(Drop)]
pub struct Tables {
    pub(crate) fields: Vec<FieldEntry>,
    pub(crate) columns: Vec<ColumnEntry>,
}

impl Tables {
    // Blank tables for 256 fields and 256 columns, which is as many as a file may have.
    pub fn new(heap: Global) -> Result<Tables, AllocError>
        ensures { IfOk result (Blank 256 256) }
    {
        Tables::with_room(heap, 256, 256)
    }

    // Blank tables for so many fields and columns.
    pub fn with_room(heap: Global, fields: usize, columns: usize) -> Result<Tables, AllocError>
        ensures { IfOk result (Blank fields columns) }
    {
        let fields = vec![in heap; FieldEntry::BLANK; fields]?;
        let columns = vec![in heap; ColumnEntry::BLANK; columns]?;
        Ok(Tables { fields, columns })
    }

    // Makes every entry blank.
    pub(crate) fn clear(&mut self)
        ensures { Blank (vec_len self.old.fields) (vec_len self.old.columns) self.new }
    {
        fill(&mut self.fields, FieldEntry::BLANK);
        fill(&mut self.columns, ColumnEntry::BLANK);
    }
}
