ghost use Rattle.std.specs.Prelude.{◌≤◌, length};

use crate::reader::Reader;

// What entries are read from, the table that they are read into, and the number of the next one.
#[derive(Drop)]
pub struct EntryReader<'r, 'f, 't, E> {
    pub reader: &'r mut Reader<'f>,
    pub table: &'t mut [E],
    pub next: usize,
    ghost room: { 256 ≤ length table.now },
    ghost numbered: { 1 ≤ next },
}
