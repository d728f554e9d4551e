ghost use Rattle.std.specs.Prelude.{◌≡◌, ◌≤◌, true, is_ok, vec_len};
ghost use Rattle.meaning.specs.File.{decode};
ghost use Rattle.meaning.specs.Forest.{size};
ghost use Rattle.meaning.specs.Keeps.{Keeps};
ghost use Rattle.batch.specs.Loaded.{Standing, decoded};

use crate::load::Sizes;
use crate::tables::Tables;
use fault::BatchFault;

// A batch in hand: a file that is accepted, and the tables that hold its fields and columns. By its type
// the file means a batch, that batch keeps the rules, its numbers are these, and its fields and columns
// stand in the tables.
#[derive(Drop)]
pub struct Batch<'a> {
    pub(crate) bytes: &'a [u8],
    pub(crate) sizes: Sizes,
    pub(crate) tables: Tables,
    ghost accepted: { is_ok (decode bytes.now) ≡ true },
    ghost keeps: { ∥ Keeps (decoded bytes.now) ∥₁ },
    ghost counted: { (sizes.rows ≡ (decoded bytes.now).rows) × (sizes.fields ≡ size (decoded bytes.now).fields) × (sizes.columns ≡ size (decoded bytes.now).columns) },
    ghost room: { (sizes.fields ≤ vec_len tables.fields) × (sizes.columns ≤ vec_len tables.columns) },
    ghost standing: { ∥ Standing bytes.now (decoded bytes.now) tables.fields.items tables.columns.items ∥₁ },
}

// A refused file: why, and the work tables, blank again.
#[derive(Drop)]
pub struct Unread {
    pub fault: BatchFault,
    pub tables: Tables,
}
