ghost use Rattle.std.specs.Prelude.{◌≡◌, vec_len};
ghost use Rattle.batch.specs.Batches.{Emptied, Lawful, Same, said};
ghost use Rattle.batch.specs.Blank.{Blank};
ghost use Rattle.batch.specs.Loaded.{read_in};

use crate::batch::{Batch, Unread};
use crate::load::load;
use crate::tables::Tables;

impl<'a> Batch<'a> {
    // Reads a batch file. The work tables are handed over: an accepted file keeps them, a refused one gives them back blank.
    pub fn read(bytes: &'a [u8], mut tables: Tables) -> Result<Batch<'a>, Unread>
        ensures decodes { said result ≡ read_in (vec_len tables.fields) (vec_len tables.columns) bytes.now }
        ensures same { Same (vec_len tables.fields) (vec_len tables.columns) bytes.now result }
        ensures emptied { Emptied (vec_len tables.fields) (vec_len tables.columns) result }
        ensures lawful { Lawful (vec_len tables.fields) (vec_len tables.columns) bytes.now result }
    {
        match load(
            bytes,
            tables.fields.as_mut_slice(),
            tables.columns.as_mut_slice(),
        ) {
            Ok(sizes) => Ok(Batch {
                bytes,
                sizes,
                tables,
            }),
            Err(fault) => {
                tables.clear();
                Err(Unread { fault, tables })
            }
        }
    }

    // The work tables, blank again.
    pub fn into_tables(self) -> Tables
        ensures { Blank (vec_len self.entry.tables.fields) (vec_len self.entry.tables.columns) result }
    {
        let Batch {
            tables: mut emptied,
            ..
        } = self;
        emptied.clear();
        emptied
    }
}
