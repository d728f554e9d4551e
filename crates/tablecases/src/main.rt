// What no file alone can show: work tables of several sizes, and tables that are used again.
#![tactic(auto)]

use anyhow::bail;
use batch::{Batch, Tables, Unread};
use std::alloc::Global;

// Tables for so many fields and columns.
const ROOMS: [(usize, usize); 6] = [
    (256, 256),
    (255, 256),
    (256, 255),
    (0, 0),
    (300, 1000),
    (1000, 20),
];

// A file of another edition, which is refused with 3 if the tables are long enough.
const OTHER_EDITION: [u8; 1] = [2];

// Files that are read one after the other into the same tables: the second is cut.
const FILES: [[u8; 4]; 3] = [[1, 3, 0, 0], [1, 7, 0, 1], [1, 5, 0, 0]];

fn main(rt: HostRuntime) -> anyhow::Result<()> {
    for (fields, columns) in ROOMS {
        let line = answer(rt.alloc(), fields, columns)?;
        println!(rt; "room {fields} {columns} {line}")?;
    }
    let mut tables = Tables::new(rt.alloc())?;
    for file in FILES {
        tables = read_into(&rt, &file, tables)?;
    }
    Ok(())
}

// The line of the refused file, with tables for so many fields and columns.
fn answer(heap: Global, fields: usize, columns: usize) -> anyhow::Result<String> {
    let tables = Tables::with_room(heap, fields, columns)?;
    let Err(Unread { fault, .. }) = Batch::read(&OTHER_EDITION, tables) else {
        bail!("a file of another edition was accepted");
    };
    Ok(format!(in heap; "{fault}")?)
}

// Prints the number of rows of a file, or why it is refused, and gives the tables back.
fn read_into(rt: &HostRuntime, file: &[u8], tables: Tables) -> anyhow::Result<Tables> {
    match Batch::read(file, tables) {
        Ok(batch) => {
            let rows = batch.rows();
            println!(rt; "rows {rows}")?;
            Ok(batch.into_tables())
        }
        Err(Unread { fault, tables }) => {
            println!(rt; "{fault}")?;
            Ok(tables)
        }
    }
}
